// Tests, sums and searches over lists, and what tests say: definitions and laws, no code.
#![tactic(auto)]
