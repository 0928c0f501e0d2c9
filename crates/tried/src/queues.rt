// Packet queues as C calls them. The words of a queue are its three numbers and the handles, three numbers each.
use crate::starting::{bytes, first, handle, stale, start};
use crate::telling::tell;
use model::Handle;
use queue::{QUEUE_WORDS, Queue};
use words::WORDS;

// The words of a queue from 0 to 1 with this many handles, of which the first is given.
fn queue_words(count: u32, oldest: Handle) -> [u32; QUEUE_WORDS] {
    let mut words = [0u32; QUEUE_WORDS];
    words[1] = 1;
    words[2] = count;
    words[3] = oldest.base;
    words[4] = oldest.length;
    words[5] = oldest.serial;
    words
}

// A queue from 0 to 1 with this many handles; the first is given, and the others are zero.
fn is_queue(queue: Queue, count: u32, oldest: Handle) -> bool {
    if queue.sender != 0 || queue.receiver != 1 || queue.count != count {
        return false;
    }
    let handles = queue.handles;
    let none = handle(0, 0, 0);
    handles[0] == oldest && handles[1..].iter().all(|it| *it == none)
}

fn makes() -> bool {
    is_queue(exports::lokhazim_queue_new(0, 1), 0, handle(0, 0, 0))
}

// The first object goes from quota 0 to quota 1.
fn sends() -> bool {
    let mut heap = bytes();
    let mut words = [0u32; WORDS];
    start(&mut heap, &mut words);
    let mut other = bytes();
    let mut others = [0u32; WORDS];
    start(&mut other, &mut others);
    let mut places = queue_words(0, handle(0, 0, 0));
    let refusal = exports::lokhazim_raw_queue_send(&mut heap, &mut words, &mut places, first());
    let _ = heap::in_place::claim(&other, &mut others, 1, first());
    let _ = heap::in_place::release(&mut other, &mut others, 0, first());
    if refusal != 0 || heap != other || words != others {
        return false;
    }
    places == queue_words(1, first())
}

// A handle that names nothing is not sent, and all stays.
fn sends_no_stale() -> bool {
    let mut heap = bytes();
    let mut words = [0u32; WORDS];
    start(&mut heap, &mut words);
    let before = heap;
    let held = words;
    let mut places = queue_words(3, first());
    let refusal = exports::lokhazim_raw_queue_send(&mut heap, &mut words, &mut places, stale());
    if refusal != 5 || places != queue_words(3, first()) {
        return false;
    }
    heap == before && words == held
}

// The one handle of a queue, and then none.
fn receives() -> bool {
    let mut places = queue_words(1, first());
    let reply = exports::lokhazim_raw_queue_receive(&mut places);
    if reply.refusal != 0 || reply.handle != first() {
        return false;
    }
    if places != queue_words(0, handle(0, 0, 0)) {
        return false;
    }
    let none = exports::lokhazim_raw_queue_receive(&mut places);
    if none.refusal != 52 || none.handle != handle(0, 0, 0) {
        return false;
    }
    places == queue_words(0, handle(0, 0, 0))
}

pub(crate) fn all() {
    tell(b"lokhazim_queue_new", makes());
    tell(b"lokhazim_raw_queue_send", sends() && sends_no_stale());
    tell(b"lokhazim_raw_queue_receive", receives());
}
