// What a walk over the heap's blocks from offset 0 meets (rule 2.8), the object that a handle names among it, and the first free block with room for a new
// object: types, definitions and laws. The survey finds both.
#![tactic(auto)]

// A block that the walk met: its place, its size in bytes with the header, the units of the block before it, and its serial.
#[derive(Clone, Copy)]
pub struct Met {
    pub at: usize,
    pub size: usize,
    pub back: usize,
    pub serial: u32,
}
