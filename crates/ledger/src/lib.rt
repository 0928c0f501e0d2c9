// The ledger (rules, section 9) and demand 3, about every list of calls (section 10): statement and proof. It has no code of a call.
#![tactic(auto)]
