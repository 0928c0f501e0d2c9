// Each call of a history by the exported function of its name.
use crate::answers::{Told, told_amount, told_block, told_handle, told_range};
use exports::{AmountReply, BlockReply, HandleReply, RangeReply};
use model::Call;
use words::WORDS;

fn of_given(reply: HandleReply) -> Told {
    told_handle(reply.refusal, reply.handle)
}

fn of_amount(reply: AmountReply) -> Told {
    told_amount(reply.refusal, reply.amount)
}

fn of_range(reply: RangeReply) -> Told {
    told_range(reply.refusal, reply.start, reply.end)
}

fn of_block(reply: BlockReply) -> Told {
    told_block(
        reply.refusal,
        reply.found,
        reply.offset,
        reply.size,
        reply.serial,
    )
}

pub(crate) fn perform(heap: &mut [u8], words: &mut [u32; WORDS], call: Call) -> Told {
    match call {
        Call::Allocate { quota, length } => {
            of_given(exports::lokhazim_raw_allocate(heap, words, quota, length))
        }
        Call::AllocateArray { quota, count, size } => {
            of_given(exports::lokhazim_raw_allocate_array(heap, words, quota, count, size))
        }
        Call::Claim { quota, handle } => {
            of_amount(exports::lokhazim_raw_claim(heap, words, quota, handle))
        }
        Call::Release { quota, handle } => {
            of_amount(exports::lokhazim_raw_release(heap, words, quota, handle))
        }
        Call::FreeAll { quota } => { of_amount(exports::lokhazim_raw_free_all(heap, words, quota)) }
        Call::Sweep => of_amount(exports::lokhazim_raw_sweep(heap, words)),
        Call::Reallocate {
            quota,
            handle,
            length,
        } => of_given(exports::lokhazim_raw_reallocate(heap, words, quota, handle, length)),
        Call::Lend { handle } => of_range(exports::lokhazim_raw_lend(heap, words, handle)),
        Call::Remaining { quota } => {
            of_amount(exports::lokhazim_raw_remaining(heap, words, quota))
        }
        Call::CanRelease { quota, handle } => {
            told_amount(
                exports::lokhazim_raw_can_release(heap, words, quota, handle),
                0,
            )
        }
        Call::ListBlock { at } => of_block(exports::lokhazim_raw_list_block(heap, words, at)),
        Call::ClearPermissions { quota, bits } => {
            of_amount(exports::lokhazim_raw_clear_permissions(heap, words, quota, bits))
        }
    }
}
