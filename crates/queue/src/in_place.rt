// A send over the accounts and the queue where they lie, and a receive over the queue where it lies. The release is
// asked for before the claim is made, so that no word has changed where it would be refused.
ghost use Rattle.std.specs.Prelude.{◌≡◌};
ghost use Rattle.rounding.specs.Rounding.{table};
ghost use Rattle.words.specs.Words.{edition_of, accounts_of, Padded};
ghost use Rattle.queue.specs.Queue.{send as send_of, receive as receive_of};
ghost use Rattle.queue.specs.Places.{queue_of};
ghost use Rattle.queue.specs.Results.{send_outcome, send_result, receive_outcome, receive_result};

use crate::places::{
    COUNT, QUEUE_WORDS, RECEIVER, SENDER, drop_oldest, oldest, put_handle, word_at,
};
use crate::{PLACES, QueueRefusal};
use model::{Handle, Refusal};
use words::WORDS;

// A handle is sent: the receiver claims the object and the sender releases it. Where one of the two would be refused,
// nothing has changed.
pub fn send_in_place(
    heap: &mut [u8],
    words: &mut [u32; WORDS],
    queue: &mut [u32; QUEUE_WORDS],
    handle: Handle,
) -> Result<(), QueueRefusal>
    ensures holds { send_outcome heap.new (send_result words.new queue.new result)
        ≡ send_of (table (edition_of words.old)) heap.old (accounts_of words.old) (queue_of queue.old) handle }
    ensures pads { Padded words.old words.new }
{
    let count = word_at(queue, COUNT) as usize;
    if PLACES < count {
        return Err(QueueRefusal::Damaged);
    }
    if count == PLACES {
        return Err(QueueRefusal::Full);
    }
    let sender = word_at(queue, SENDER);
    let receiver = word_at(queue, RECEIVER);
    // No `?` on the claim's question: it would read as if the claim were wanted, and a refused send ends here.
    if let Err(refusal) = heap::in_place::can_release(heap, words, sender, handle) {
        if let Err(first) = heap::in_place::can_claim(heap, words, receiver, handle) {
            return Err(QueueRefusal::Heap(first));
        }
        return Err(QueueRefusal::Heap(refusal));
    }
    heap::in_place::claim(heap, words, receiver, handle)?;
    // The release is not refused: it was asked for, and the claim leaves the sender's hold.
    let _ = heap::in_place::release(heap, words, sender, handle);
    put_handle(queue, handle);
    Ok(())
}

// The oldest handle is given.
pub fn receive_in_place(queue: &mut [u32; QUEUE_WORDS]) -> Result<Handle, QueueRefusal>
    ensures { receive_outcome (receive_result queue.new result) ≡ receive_of (queue_of queue.old) }
{
    let count = word_at(queue, COUNT) as usize;
    if PLACES < count {
        return Err(QueueRefusal::Damaged);
    }
    if count == 0 {
        return Err(QueueRefusal::Empty);
    }
    let handle = oldest(queue);
    drop_oldest(queue);
    Ok(handle)
}
