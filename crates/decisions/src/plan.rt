// What a decision has the upper layer do to the bytes.
ghost use Rattle.std.specs.Prelude.{◌≡◌};
ghost use Rattle.decisions.specs.Plan.{plan, no_plan};

use fragments::{Block, Lba};

// The pending block is recorded, so many sectors of it pending and the missing ones zero.
#[derive(Clone, Copy)]
pub struct Flush {
    pub block: Block,
    pub sectors: u8,
}

// What moves after the flush.
#[derive(Clone, Copy)]
pub enum Transfer {
    Nothing,
    // Readable sectors go to the reply: recorded ones from the medium, then pending ones from a place in the pending buffer on.
    Send {
        address: Lba,
        recorded: u32,
        place: u32,
        pending: u32,
    },
    // The data's sectors gather after those already pending in a block, and each sixteen of them are recorded.
    Gather {
        block: Block,
        pending: u8,
        sectors: u32,
    },
    // Whole blocks are recorded as zeros.
    Fill {
        block: Block,
        blocks: u32,
    },
}

// A flush before anything else, if there is one; then the transfer.
#[derive(Clone, Copy)]
pub struct Plan {
    pub flush: Option<Flush>,
    pub transfer: Transfer,
}

impl Plan {
    pub fn new(flush: Option<Flush>, transfer: Transfer) -> Plan
        ensures { result ≡ plan flush transfer }
    {
        Plan { flush, transfer }
    }

    // Nothing is done to the bytes.
    pub fn none() -> Plan
        ensures { result ≡ no_plan }
    {
        Plan {
            flush: None,
            transfer: Transfer::Nothing,
        }
    }
}
