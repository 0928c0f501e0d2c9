// Packet queues: each function is the one of `queue` and its answer as numbers.
ghost use Rattle.std.specs.Prelude.{◌≡◌};
ghost use Rattle.words.specs.Words.{Padded};
ghost use Rattle.queue.specs.Queue.{empty_queue, send, receive};
ghost use Rattle.queue.specs.Places.{queue_of};
ghost use Rattle.queue.specs.Results.{queue_refusal_number};
ghost use Rattle.exports.specs.HeapReplies.{on_words};
ghost use Rattle.exports.specs.QueueReplies.{sent_in, received_in};

use crate::replies::{HandleReply, Numbered, number_of, reply_of_handle};
use model::Handle;
use queue::{QUEUE_WORDS, Queue, QueueRefusal};
use words::WORDS;

impl Numbered for QueueRefusal {
    ghost numbered = { queue_refusal_number };

    fn told(self) -> u32 {
        self.number()
    }
}

// A queue with nothing on its way from one quota to another.
#[unsafe(no_mangle)]
pub extern "C" fn lokhazim_queue_new(sender: u32, receiver: u32) -> Queue
    ensures { result ≡ empty_queue sender receiver }
{
    Queue::new(sender, receiver)
}

// A handle is sent: the receiver claims its object, and the sender releases it.
#[unsafe(no_mangle)]
pub extern "C" fn lokhazim_raw_queue_send(
    heap: &mut [u8],
    words: &mut [u32; WORDS],
    queue: &mut [u32; QUEUE_WORDS],
    handle: Handle,
) -> u32
    ensures holds { sent_in heap.new words.new queue.new result
        ≡ on_words send heap.old words.old (queue_of queue.old) handle }
    ensures pads { Padded words.old words.new }
{
    number_of(queue::send_in_place(heap, words, queue, handle))
}

// The oldest handle is given.
#[unsafe(no_mangle)]
pub extern "C" fn lokhazim_raw_queue_receive(queue: &mut [u32; QUEUE_WORDS]) -> HandleReply
    ensures { received_in queue.new result ≡ receive (queue_of queue.old) }
{
    reply_of_handle(queue::receive_in_place(queue))
}
