// What the calls keep: every change that a call of `model` makes leads from a good state to a good one. Laws only; it has no code of a call.
#![tactic(auto)]
