// What a command changes of a disc, as a value without the disc. Making the new disc of it is the disc's.
use fragments::Entry;
use protocol::Sense;

// What becomes of the list, of the pending sectors and of the flag of a finalized disc.
#[derive(Clone, Copy)]
pub enum Effect {
    // Nothing: all stays.
    Keep,
    // The pending block is recorded.
    Settle {
        flushed: Entry,
    },
    // The blank tail becomes a reserved fragment, and a tail begins after it.
    Reserve {
        reserved: Entry,
        tail: Entry,
    },
    // The pending block is recorded; then a fragment is closed, a tail begins after it, or both.
    Close {
        flushed: Entry,
        closed: Entry,
        tail: Entry,
        finalized: bool,
    },
    // Another fragment's pending block is recorded; then sectors gather in a fragment, and so many of them are pending.
    Grow {
        flushed: Entry,
        grown: Entry,
        pending: u8,
        owner: u8,
    },
}

// What a command changes of the disc.
#[derive(Clone, Copy)]
pub struct Change {
    pub sense: Sense,
    pub effect: Effect,
}
