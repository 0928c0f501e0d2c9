// A queue as words where they lie: its sender, its receiver, its count, then base, length and serial of each place. The
// definition `queue_of` says which queue some words hold.
ghost use Rattle.std.specs.Prelude.{◌≡◌, ◌<◌, length, get_or};
ghost use Rattle.model.specs.Answers.{zero_handle};
ghost use Rattle.queue.specs.Queue.{PLACES, with_handle, without_oldest};
ghost use Rattle.queue.specs.Places.{COUNT, QUEUE_WORD_COUNT, handle_in, queue_of, HasHandles, MovedUp};

use crate::{PLACES, Queue};
use model::Handle;
use std::array;

// Where sender, receiver and count stand, where the first and the last place begin, and the number of words.
pub(crate) const SENDER: usize = 0;

pub(crate) const RECEIVER: usize = 1;

pub(crate) const COUNT: usize = 2;

const FIRST: usize = 3;

const LAST: usize = 3 * PLACES;

pub const QUEUE_WORDS: usize = FIRST + 3 * PLACES;

// One of the words.
pub(crate) fn word_at(queue: &[u32; QUEUE_WORDS], at: usize) -> u32
    requires { at < QUEUE_WORD_COUNT }
    ensures { result ≡ get_or queue.now at 0 }
{
    queue[at]
}

// The handle in a place.
fn handle_in(queue: &[u32; QUEUE_WORDS], place: usize) -> Handle
    requires { place < PLACES }
    ensures { result ≡ handle_in queue.now place }
{
    let at = FIRST + 3 * place;
    Handle {
        base: word_at(queue, at),
        length: word_at(queue, at + 1),
        serial: word_at(queue, at + 2),
    }
}

// The handle in the first place.
pub(crate) fn oldest(queue: &[u32; QUEUE_WORDS]) -> Handle
    ensures { result ≡ get_or (queue_of queue.now).handles 0 zero_handle }
{
    handle_in(queue, 0)
}

// The queue that some words hold.
pub(crate) fn queue_of(words: &[u32; QUEUE_WORDS]) -> Queue
    ensures { result ≡ queue_of words.now }
{
    Queue {
        sender: word_at(words, SENDER),
        receiver: word_at(words, RECEIVER),
        count: word_at(words, COUNT),
        handles: array::from_fn(|place| handle_in(words, place)),
    }
}

// The handles are written into their places.
fn put_handles(words: &mut [u32; QUEUE_WORDS], handles: [Handle; PLACES])
    ensures { HasHandles handles words.old words.new }
{
    for (place, handle) in handles.iter().enumerate() {
        let at = FIRST + 3 * place;
        words[at] = handle.base;
        words[at + 1] = handle.length;
        words[at + 2] = handle.serial;
    }
}

// The words of a queue.
pub(crate) fn words_of(queue: Queue) -> [u32; QUEUE_WORDS]
    ensures { queue_of result ≡ queue }
{
    let mut words = [0u32; QUEUE_WORDS];
    words[SENDER] = queue.sender;
    words[RECEIVER] = queue.receiver;
    words[COUNT] = queue.count;
    put_handles(&mut words, queue.handles);
    words
}

// One handle more behind the others.
pub(crate) fn put_handle(queue: &mut [u32; QUEUE_WORDS], handle: Handle)
    requires { get_or queue.old COUNT 0 < PLACES }
    ensures { queue_of queue.new ≡ with_handle handle (queue_of queue.old) }
{
    let count = word_at(queue, COUNT);
    let at = FIRST + 3 * (count as usize);
    queue[at] = handle.base;
    queue[at + 1] = handle.length;
    queue[at + 2] = handle.serial;
    queue[COUNT] = count + 1;
}

// Every place moves up by one, and the last becomes zero.
fn move_up(queue: &mut [u32; QUEUE_WORDS])
    ensures { MovedUp queue.old queue.new }
{
    queue.copy_within(FIRST + 3.., FIRST);
    queue[LAST] = 0;
    queue[LAST + 1] = 0;
    queue[LAST + 2] = 0;
}

// One handle less, the oldest.
pub(crate) fn drop_oldest(queue: &mut [u32; QUEUE_WORDS])
    requires { 0 < get_or queue.old COUNT 0 }
    ensures { queue_of queue.new ≡ without_oldest (queue_of queue.old) }
{
    let count = word_at(queue, COUNT);
    move_up(queue);
    queue[COUNT] = count - 1;
}
