// Two images side by side: what differs in the states that they say, one difference after the other. What an image says stands in `image_model`.
#![tactic(auto)]

mod comparing;
mod finding;
mod going;
mod pairing;

pub use comparing::{compare, next_difference};

// One difference, named without its values: the last serial, the heap's kind, its edition, a quota by its number, a hold record by its place, a run of heap
// bytes by its offset and length.
#[derive(Clone, Copy)]
pub enum Difference {
    LastSerial,
    Kind,
    Edition,
    Quota(usize),
    Record(usize),
    Bytes(usize, usize),
}

// Which of the two images a refusal is about. `Neither` and no Option: `why_both` (specs/Compare.antt) says it of what
// both are refused for together.
#[derive(Clone, Copy)]
pub enum Which {
    First,
    Second,
    Neither,
}

// From where on differences are looked for: from the last serial, from the kind, from the edition, from a quota, a hold record or a heap byte.
#[derive(Clone, Copy)]
pub enum Position {
    Start,
    Kind,
    Edition,
    Quota(usize),
    Record(usize),
    Byte(usize),
}
