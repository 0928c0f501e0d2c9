// Images moved from one form to the other: form 1 up to form 2, form 2 down to form 1. What an image is stands in `image_model`, how it is read and
// written in `image`.
#![tactic(auto)]

mod moving;

pub use moving::{move_down, move_up};

// The way of a move: up from form 1 to form 2, or down from form 2 to form 1.
#[derive(Clone, Copy)]
pub(crate) enum Direction {
    Up,
    Down,
}
