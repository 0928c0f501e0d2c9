// Packet queues over the heap's promises alone (rules, section 21): up to sixteen handles on their way from a sending
// quota to a receiving one, first in, first out.
#![tactic(auto)]

ghost use Rattle.std.specs.Prelude.{◌≡◌};
ghost use Rattle.rounding.specs.Rounding.{table};
ghost use Rattle.queue.specs.declared.QueueRefusal.TheVariants.{Heap};
ghost use Rattle.queue.specs.Queue.{empty_queue, send as send_of, receive as receive_of};
ghost use Rattle.queue.specs.Results.{queue_refusal_number, send_outcome, receive_outcome};

use accounts::Accounts;
use model::{Handle, Refusal};

mod in_place;
mod places;

pub use in_place::{receive_in_place, send_in_place};
pub use places::QUEUE_WORDS;

// How many handles a queue has room for.
pub const PLACES: usize = 16;

// A queue between two quotas (rule 21.1): the handles on their way are the first `count`, the oldest first.
// The count stands beside the array: C has this struct by value, from `lokhazim_queue_new`.
#[repr(C)]
#[derive(Clone, Copy)]
pub struct Queue {
    pub sender: u32,
    pub receiver: u32,
    pub count: u32,
    pub handles: [Handle; PLACES],
}

// Why a queue refuses a call: its count is above sixteen, it is full, it is empty, or the heap refuses.
#[derive(Clone, Copy)]
pub enum QueueRefusal {
    Damaged,
    Full,
    Empty,
    Heap(Refusal),
}

// What a send gives: the accounts and the queue after it, and its answer.
#[derive(Clone, Copy)]
pub struct SendResult {
    pub accounts: Accounts,
    pub queue: Queue,
    pub answer: Result<(), QueueRefusal>,
}

// What a receive gives: the queue after it, and its answer.
#[derive(Clone, Copy)]
pub struct ReceiveResult {
    pub queue: Queue,
    pub answer: Result<Handle, QueueRefusal>,
}

impl QueueRefusal {
    // The refusal's number (rule 21.3). docs/PROMISES-QUEUE.md names it, and C gets it.
    pub fn number(self) -> u32
        ensures { result ≡ queue_refusal_number self }
    {
        match self {
            QueueRefusal::Damaged => 53,
            QueueRefusal::Full => 51,
            QueueRefusal::Empty => 52,
            QueueRefusal::Heap(refusal) => refusal.number(),
        }
    }
}

impl From<Refusal> for QueueRefusal {
    ghost from_gives = { λ refusal given. given ≡ Heap refusal };

    // A refusal of the heap is one of the queue.
    fn from(refusal: Refusal) -> QueueRefusal {
        QueueRefusal::Heap(refusal)
    }
}

impl Queue {
    // A queue with nothing on its way.
    pub fn new(sender: u32, receiver: u32) -> Queue
        ensures { result ≡ empty_queue sender receiver }
    {
        let zero = Handle {
            base: 0,
            length: 0,
            serial: 0,
        };
        Queue {
            sender: sender,
            receiver: receiver,
            count: 0,
            handles: [zero; PLACES],
        }
    }
}

// A handle is sent: the receiver claims the object and the sender releases it. Where one of the two would be refused,
// nothing has changed.
pub fn send(heap: &mut [u8], accounts: Accounts, queue: Queue, handle: Handle) -> SendResult
    ensures { send_outcome heap.new result ≡ send_of (table accounts.edition) heap.old accounts queue handle }
{
    let mut words = words::words_of(accounts);
    let mut places = places::words_of(queue);
    let answer = send_in_place(heap, &mut words, &mut places, handle);
    SendResult {
        accounts: words::accounts_of(&words),
        queue: places::queue_of(&places),
        answer: answer,
    }
}

// The oldest handle is given.
pub fn receive(queue: Queue) -> ReceiveResult
    ensures { receive_outcome result ≡ receive_of queue }
{
    let mut places = places::words_of(queue);
    let answer = receive_in_place(&mut places);
    ReceiveResult {
        queue: places::queue_of(&places),
        answer: answer,
    }
}
