// The replay program as a definition: which lines are read, what each prints, and the list of blocks at the end. No code of the replay is here.
#![tactic(auto)]

// The name that a line begins with.
// `Unknown` and no Option: `word_of` (specs/Commands.antt), which docs/PROMISES.md names, gives it.
#[derive(Clone, Copy)]
pub enum Word {
    Open,
    Alloc,
    Array,
    Claim,
    Free,
    All,
    Realloc,
    Unknown,
}
