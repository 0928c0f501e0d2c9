// Comparing images: each function is the one of `comparison` and its answer as numbers.
ghost use Rattle.std.specs.Prelude.{◌≡◌};
ghost use Rattle.comparison.specs.Compare.{compare_of, advance_of};
ghost use Rattle.exports.specs.ComparisonReplies.{compare_reply, position_of, next_reply};

use exports::{CompareReply, NextReply};

// The n-th difference, from 0, of two images, or why they are not compared.
#[unsafe(no_mangle)]
pub extern "C" fn lokhazim_image_compare(first: &[u8], second: &[u8], n: usize) -> CompareReply
    ensures { result ≡ compare_reply (compare_of first.now second.now n) }
{
    exports::lokhazim_image_compare(first, second, n)
}

// The first difference from a position on, and the position behind it, or why the images are not compared.
#[unsafe(no_mangle)]
pub extern "C" fn lokhazim_image_compare_next(
    first: &[u8],
    second: &[u8],
    part: u32,
    at: usize,
) -> NextReply
    ensures { result ≡ next_reply (advance_of first.now second.now (position_of part at)) }
{
    exports::lokhazim_image_compare_next(first, second, part, at)
}
