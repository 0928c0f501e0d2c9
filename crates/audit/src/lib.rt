// When heap and accounts agree, by one pass over the hold records and one walk over the blocks: each used record is a key, each live block strikes its serial's
// keys, and their quotas pay for it; at the end no key is left and no quota owes anything. Laws only: this is the same as the rules' sentences (section 5).
#![tactic(auto)]
