// Images as C writes, reads and asks for them, of a plain heap of 128 bytes: 5,120 bytes in form 2 and 1,536 in form
// 1. What is written is compared with what `image` writes, and what is read with the state.
use crate::starting::{bytes, plain_start, start};
use crate::telling::tell;
use image_model::ImageRefusal;
use words::WORDS;

// A buffer longer than an image, and one that is too short by a byte.
pub(crate) const ROOM: usize = 5200;

pub(crate) const SHORT: usize = 1535;

pub(crate) fn room() -> [u8; ROOM] {
    [170; ROOM]
}

// Whether the writer wrote so many bytes.
pub(crate) fn wrote(answer: Result<usize, ImageRefusal>, length: usize) -> bool {
    let Ok(count) = answer else {
        return false;
    };
    count == length
}

fn writes() -> bool {
    let mut heap = bytes();
    let mut words = [0u32; WORDS];
    plain_start(&mut heap, &mut words);
    let mut one = room();
    let mut two = room();
    let reply = exports::lokhazim_raw_image_write(&mut one, &heap, &words);
    let answer = image::in_place::write_image(&mut two, &heap, &words);
    if reply.refusal != 0 || reply.length != 5120 {
        return false;
    }
    wrote(answer, 5120) && one == two
}

fn writes_form_1() -> bool {
    let mut heap = bytes();
    let mut words = [0u32; WORDS];
    plain_start(&mut heap, &mut words);
    let mut one = room();
    let mut two = room();
    let reply = exports::lokhazim_raw_image_write_form_1(&mut one, &heap, &words);
    let answer = image::in_place::write_form_1(&mut two, &heap, &words);
    if reply.refusal != 0 || reply.length != 1536 {
        return false;
    }
    wrote(answer, 1536) && one == two
}

// A buffer without room, which stays as it is: 25 each way.
fn finds_no_room() -> bool {
    let mut heap = bytes();
    let mut words = [0u32; WORDS];
    plain_start(&mut heap, &mut words);
    let mut short = [170u8; SHORT];
    let one = exports::lokhazim_raw_image_write(&mut short, &heap, &words);
    let two = exports::lokhazim_raw_image_write_form_1(&mut short, &heap, &words);
    if one.refusal != 25 || two.refusal != 25 {
        return false;
    }
    short == [170; SHORT]
}

// An image of the state, read into another heap.
fn resumes() -> bool {
    let mut heap = bytes();
    let mut words = [0u32; WORDS];
    plain_start(&mut heap, &mut words);
    let mut image = [0u8; 5120];
    let _ = image::in_place::write_image(&mut image, &heap, &words);
    let mut other = bytes();
    let mut others = [4294967295u32; WORDS];
    let refusal = exports::lokhazim_raw_image_resume(&image, &mut other, &mut others);
    refusal == 0 && other == heap && others == words
}

// One byte of the image is another: 22, the heap stays, and the accounts are zero.
fn resumes_no_spoiled() -> bool {
    let mut heap = bytes();
    let mut words = [0u32; WORDS];
    plain_start(&mut heap, &mut words);
    let mut image = [0u8; 5120];
    let _ = image::in_place::write_image(&mut image, &heap, &words);
    image[20] = 255;
    let mut other = bytes();
    let mut others = [4294967295u32; WORDS];
    let refusal = exports::lokhazim_raw_image_resume(&image, &mut other, &mut others);
    refusal == 22 && other == bytes() && others == [0; WORDS]
}

// Into a state in use: what it was is gone.
fn restores() -> bool {
    let mut heap = bytes();
    let mut words = [0u32; WORDS];
    plain_start(&mut heap, &mut words);
    let mut image = [0u8; 5120];
    let _ = image::in_place::write_image(&mut image, &heap, &words);
    let mut other = bytes();
    let mut others = [0u32; WORDS];
    start(&mut other, &mut others);
    let refusal = exports::lokhazim_raw_image_restore(&image, &mut other, &mut others);
    refusal == 0 && other == heap && others == words
}

// One byte of the image is another: 22, and heap and accounts stay.
fn restores_no_spoiled() -> bool {
    let mut heap = bytes();
    let mut words = [0u32; WORDS];
    start(&mut heap, &mut words);
    let image = [255u8; 512];
    let before = heap;
    let held = words;
    let refusal = exports::lokhazim_raw_image_restore(&image, &mut heap, &mut words);
    refusal == 22 && heap == before && words == held
}

fn examines() -> bool {
    let mut heap = bytes();
    let mut words = [0u32; WORDS];
    plain_start(&mut heap, &mut words);
    let mut image = [0u8; 5120];
    let _ = image::in_place::write_image(&mut image, &heap, &words);
    let good = exports::lokhazim_image_examine(&image);
    image[20] = 255;
    let bad = exports::lokhazim_image_examine(&image);
    if good.refusal != 0 || good.form != 2 || good.heap_length != 128 {
        return false;
    }
    bad.refusal == 22 && bad.form == 0 && bad.heap_length == 0
}

// Of a heap of 128 bytes, of the longest, and of a length that no heap has.
fn lengths() -> bool {
    let short = exports::lokhazim_image_length(128);
    let long = exports::lokhazim_image_length(32768);
    short == 5120 && long == 37888 && exports::lokhazim_image_length(60) == 0
}

fn form_1_lengths() -> bool {
    let short = exports::lokhazim_image_length_form_1(128);
    let long = exports::lokhazim_image_length_form_1(32768);
    short == 1536 && long == 34816 && exports::lokhazim_image_length_form_1(60) == 0
}

pub(crate) fn all() {
    let refuses = finds_no_room();
    tell(b"lokhazim_raw_image_write", writes() && refuses);
    tell(
        b"lokhazim_raw_image_write_form_1",
        writes_form_1() && refuses,
    );
    tell(
        b"lokhazim_raw_image_resume",
        resumes() && resumes_no_spoiled(),
    );
    tell(
        b"lokhazim_raw_image_restore",
        restores() && restores_no_spoiled(),
    );
    tell(b"lokhazim_image_examine", examines());
    tell(b"lokhazim_image_length", lengths());
    tell(b"lokhazim_image_length_form_1", form_1_lengths());
}
