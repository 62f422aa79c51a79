// What a flush comes to, and a command that flushes and closes the last record.
ghost use Rattle.std.specs.Prelude.{◌≡◌};
ghost use Rattle.decisions.specs.Flushing.{no_flushing, closing_last};

use crate::change::Effect;
use crate::decision::Decision;
use crate::plan::{Flush, Plan, Transfer};
use fragments::Entry;
use protocol::Reply;

// The record that a flush leaves, what it does to the bytes, and how many blocks it records. Each field says whether there is a flush, and it
// is no Option of all three: `flushing`, `closing_last` and the theorem `closings` (examples) name them.
#[derive(Clone, Copy)]
pub struct Flushing {
    pub entry: Entry,
    pub plan: Option<Flush>,
    pub recorded: u32,
}

impl Flushing {
    // Nothing is flushed.
    pub fn none() -> Flushing
        ensures { result ≡ no_flushing }
    {
        Flushing {
            entry: Entry::none(),
            plan: None,
            recorded: 0,
        }
    }

    // After the flush the last record is closed, and a tail may begin after it: what CLOSE of the session and of the disc are decided to.
    #[tactic(auto, unfolding(crate::specs::Flushing::closing_last))]
    pub fn closing(self, last: Entry, tail: Entry, finalized: bool) -> Decision
        ensures { result ≡ closing_last self last tail finalized }
    {
        let effect = Effect::Close {
            flushed: self.entry,
            closed: Entry::tail_closed(last),
            tail,
            finalized,
        };
        Decision::accepted(
            effect,
            self.recorded,
            Reply::none(),
            Plan::new(self.plan, Transfer::Nothing),
        )
    }
}
