// Images of a stopped heap: written from a heap and its accounts, and read back. What an image is stands in `image_model`, how it is cut into frames
// in `framing`.
#![tactic(auto)]

use accounts::Accounts;
use image_model::{Form, ImageRefusal};

mod asking;
mod entries;
mod forms;
mod head;
pub mod in_place;
mod marks;
mod numbers;
mod parsing;
mod reading;
mod records;
mod writing;

pub use asking::{accounts_in, examine, form_of, heap_place};
pub use parsing::{parse_image, shape_of};
pub use reading::read_image;
pub use writing::{form_1_length, image_length, write_form_1, write_image};

// What an image is by its own bytes, its form and the heap's length, or why it is refused; and its accounts. These stand
// beside the answer: `parts_in` (specs/Parsing.antt) says that they are all zero where the image is refused.
#[derive(Clone, Copy)]
pub struct Parsed {
    pub accounts: Accounts,
    pub shape: Result<(Form, usize), ImageRefusal>,
}

// Where the heap of an image begins in its stream, and how many bytes it has.
#[derive(Clone, Copy)]
pub struct HeapPlace {
    pub start: u32,
    pub size: u32,
}
