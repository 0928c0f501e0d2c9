// Images moved from one form to the other, and compared, as C does it.
use crate::comparing::begins;
use crate::starting::{bytes, first, plain_start};
use crate::telling::tell;
use exports::{CompareReply, NextReply};
use words::WORDS;

// The state, in one form and in the other.
fn form_1() -> [u8; 1536] {
    let mut heap = bytes();
    let mut words = [0u32; WORDS];
    plain_start(&mut heap, &mut words);
    let mut image = [0u8; 1536];
    let _ = image::in_place::write_form_1(&mut image, &heap, &words);
    image
}

fn form_2() -> [u8; 5120] {
    let mut heap = bytes();
    let mut words = [0u32; WORDS];
    plain_start(&mut heap, &mut words);
    let mut image = [0u8; 5120];
    let _ = image::in_place::write_image(&mut image, &heap, &words);
    image
}

// The same with another byte in the object at 8.
fn changed() -> [u8; 5120] {
    let mut heap = bytes();
    let mut words = [0u32; WORDS];
    plain_start(&mut heap, &mut words);
    let _ = heap::in_place::write_object(&mut heap, &words, first(), 2, 9);
    let mut image = [0u8; 5120];
    let _ = image::in_place::write_image(&mut image, &heap, &words);
    image
}

// Each form becomes the other, and is refused where it is of that form already.
fn moves_up() -> bool {
    let mut out = [170u8; 5120];
    let reply = exports::lokhazim_image_move_up(&form_1(), &mut out);
    reply.refusal == 0 && reply.length == 5120 && out == form_2()
}

fn moves_no_form_2_up() -> bool {
    let mut out = [170u8; 5120];
    let reply = exports::lokhazim_image_move_up(&form_2(), &mut out);
    reply.refusal == 23 && reply.length == 0 && begins(&out, b"")
}

fn moves_down() -> bool {
    let mut out = [170u8; 1536];
    let reply = exports::lokhazim_image_move_down(&form_2(), &mut out);
    reply.refusal == 0 && reply.length == 1536 && out == form_1()
}

fn moves_no_form_1_down() -> bool {
    let mut out = [170u8; 1536];
    let reply = exports::lokhazim_image_move_down(&form_1(), &mut out);
    reply.refusal == 23 && reply.length == 0 && begins(&out, b"")
}

// What compare gives of two images and a number.
// Replies are compared field by field, here and in the other files: their structs are made for C and derive no equality,
// and one derived there for this program alone is no plainer.
fn compares(one: &[u8], two: &[u8], n: usize, wanted: CompareReply) -> bool {
    let reply = exports::lokhazim_image_compare(one, two, n);
    if reply.refusal != wanted.refusal || reply.which != wanted.which || reply.kind != wanted.kind {
        return false;
    }
    reply.place == wanted.place && reply.length == wanted.length
}

fn compared(refusal: u32, which: u32, kind: u32, place: usize, length: usize) -> CompareReply {
    CompareReply {
        refusal: refusal,
        which: which,
        kind: kind,
        place: place,
        length: length,
    }
}

// One byte differs, at 10; there is no second difference, and none between an image and itself.
fn finds_the_byte() -> bool {
    let one = form_2();
    let two = changed();
    if !compares(&one, &two, 0, compared(0, 0, 4, 10, 1)) {
        return false;
    }
    compares(&one, &two, 1, compared(0, 0, 0, 0, 0))
        && compares(&two, &two, 0, compared(0, 0, 0, 0, 0))
}

// A second image that is none.
fn refuses_the_second() -> bool {
    let mut two = form_2();
    two[20] = 255;
    compares(&form_2(), &two, 0, compared(22, 2, 0, 0, 0))
}

// What the next difference is from a position.
fn goes_on(one: &[u8], two: &[u8], part: u32, at: usize, wanted: NextReply) -> bool {
    let reply = exports::lokhazim_image_compare_next(one, two, part, at);
    if reply.refusal != wanted.refusal || reply.which != wanted.which || reply.kind != wanted.kind {
        return false;
    }
    if reply.place != wanted.place || reply.length != wanted.length {
        return false;
    }
    reply.part == wanted.part && reply.at == wanted.at
}

fn next(refusal: u32, which: u32, kind: u32, place: usize, length: usize) -> NextReply {
    NextReply {
        refusal: refusal,
        which: which,
        kind: kind,
        place: place,
        length: length,
        part: 0,
        at: 0,
    }
}

// The byte, with the position behind it; nothing from there on; and a second image that is none.
fn finds_the_next() -> bool {
    let one = form_2();
    let mut two = changed();
    let mut found = next(0, 0, 4, 10, 1);
    found.part = 3;
    found.at = 11;
    if !goes_on(&one, &two, 0, 0, found) || !goes_on(&one, &two, 3, 11, next(0, 0, 0, 0, 0)) {
        return false;
    }
    two[20] = 255;
    goes_on(&one, &two, 0, 0, next(22, 2, 0, 0, 0))
}

pub(crate) fn all() {
    tell(
        b"lokhazim_image_move_up",
        moves_up() && moves_no_form_2_up(),
    );
    tell(
        b"lokhazim_image_move_down",
        moves_down() && moves_no_form_1_down(),
    );
    tell(
        b"lokhazim_image_compare",
        finds_the_byte() && refuses_the_second(),
    );
    tell(b"lokhazim_image_compare_next", finds_the_next());
}
