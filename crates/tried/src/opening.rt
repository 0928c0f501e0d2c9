// Open, as C calls it: a heap of an allowed length and one that is too short, over whatever bytes and words there
// are.
use crate::starting::{bytes, grants, quarantine};
use crate::telling::tell;
use exports::Grants;
use words::WORDS;

// Words of a state that was there before.
fn used_words() -> [u32; WORDS] {
    [4294967295; WORDS]
}

// Heap and words are those of an opening with the same settings.
fn opens() -> bool {
    let mut heap = bytes();
    let mut words = used_words();
    let refusal = exports::lokhazim_raw_open(
        &mut heap,
        &mut words,
        Grants { values: grants() },
        1,
        0,
    );
    let mut other = bytes();
    let mut others = used_words();
    let _ = heap::in_place::open(&mut other, &mut others, grants(), quarantine());
    refusal == 0 && heap == other && words == others
}

// The heap stays, and all words are zero.
fn refuses() -> bool {
    let mut heap = [170u8; 63];
    let mut words = used_words();
    let refusal = exports::lokhazim_raw_open(
        &mut heap,
        &mut words,
        Grants { values: grants() },
        1,
        0,
    );
    refusal == 1 && heap == [170; 63] && words == [0; WORDS]
}

pub(crate) fn all() {
    tell(b"lokhazim_raw_open", opens() && refuses());
}
