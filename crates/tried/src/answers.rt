// Answers as numbers, so that the reply of an exported function and the answer of `perform` can be compared.
use crate::starting::handle;
use model::{Answer, Handle, ListedBlock, Range, Refusal};

// What any call gives; what it does not give is zero.
// The refusal is a number, 0 where there is none: this is what the replies that C gets are compared by.
#[derive(Clone, Copy, PartialEq, Eq)]
pub(crate) struct Told {
    pub refusal: u32,
    pub handle: Handle,
    pub amount: u32,
    pub start: usize,
    pub end: usize,
    pub found: u32,
    pub serial: u32,
}

pub(crate) fn told_handle(refusal: u32, given: Handle) -> Told {
    Told {
        refusal: refusal,
        handle: given,
        amount: 0,
        start: 0,
        end: 0,
        found: 0,
        serial: 0,
    }
}

pub(crate) fn told_amount(refusal: u32, amount: u32) -> Told {
    Told {
        refusal: refusal,
        handle: handle(0, 0, 0),
        amount: amount,
        start: 0,
        end: 0,
        found: 0,
        serial: 0,
    }
}

pub(crate) fn told_range(refusal: u32, start: usize, end: usize) -> Told {
    Told {
        refusal: refusal,
        handle: handle(0, 0, 0),
        amount: 0,
        start: start,
        end: end,
        found: 0,
        serial: 0,
    }
}

// A block from start on, of end bytes.
pub(crate) fn told_block(refusal: u32, found: u32, start: usize, end: usize, serial: u32) -> Told {
    Told {
        refusal: refusal,
        handle: handle(0, 0, 0),
        amount: 0,
        start: start,
        end: end,
        found: found,
        serial: serial,
    }
}

fn of_verdict(answer: Result<(), Refusal>) -> Told {
    match answer {
        Ok(()) => told_amount(0, 0),
        Err(refusal) => told_amount(refusal.number(), 0),
    }
}

fn of_handle(answer: Result<Handle, Refusal>) -> Told {
    match answer {
        Ok(given) => told_handle(0, given),
        Err(refusal) => told_amount(refusal.number(), 0),
    }
}

fn of_amount(answer: Result<u32, Refusal>) -> Told {
    match answer {
        Ok(amount) => told_amount(0, amount),
        Err(refusal) => told_amount(refusal.number(), 0),
    }
}

fn of_range(answer: Result<Range, Refusal>) -> Told {
    match answer {
        Ok(range) => told_range(0, range.start, range.end),
        Err(refusal) => told_amount(refusal.number(), 0),
    }
}

fn of_block(answer: Result<Option<ListedBlock>, Refusal>) -> Told {
    match answer {
        Ok(Some(block)) => told_block(0, 1, block.offset, block.size, block.serial),
        Ok(None) => told_amount(0, 0),
        Err(refusal) => told_amount(refusal.number(), 0),
    }
}

// The answer of any call.
pub(crate) fn numbers_of(answer: Answer) -> Told {
    match answer {
        Answer::Verdict(verdict) => of_verdict(verdict),
        Answer::Handle(given) => of_handle(given),
        Answer::Amount(amount) => of_amount(amount),
        Answer::Range(range) => of_range(range),
        Answer::Block(block) => of_block(block),
    }
}
