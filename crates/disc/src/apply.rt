// The disc after a command, made from the disc before it and what the command changes: the one place where a disc is changed.
ghost use Rattle.std.specs.Prelude.{◌≡◌};
ghost use Rattle.disc.specs.Types.{Reserve, Close, Grow};
ghost use Rattle.disc.specs.Apply.{with_entry, settled, affected, changed, decided};

use crate::state::Disc;
use crate::verdict::Verdict;
use decisions::{Change, Decision, Effect};
use fragments::Entry;

impl Disc {
    // The disc with a record put under its number.
    #[tactic(auto, unfolding(crate::specs::Apply::with_entry))]
    pub(crate) fn with_entry(mut self, entry: Entry) -> Disc
        ensures { result ≡ with_entry self entry }
    {
        self.fragments = entry.put(self.fragments);
        self
    }

    // The disc after a flush that leaves this record: nothing is pending then.
    pub(crate) fn flush(self, flushed: Entry) -> Disc
        ensures { result ≡ settled self flushed }
    {
        Disc {
            pending: 0,
            owner: 0,
            ..self.with_entry(flushed)
        }
    }

    // The disc with a reserved fragment in the place of its blank tail, and a tail after it.
    #[tactic(auto, unfolding(crate::specs::Apply::affected))]
    pub(crate) fn reserve(self, reserved: Entry, tail: Entry) -> Disc
        ensures { result ≡ affected self (Reserve reserved tail) }
    {
        self.with_entry(reserved).with_entry(tail)
    }

    // The disc after a flush, with a closed fragment and a tail after it.
    #[tactic(auto, unfolding(crate::specs::Apply::affected))]
    pub(crate) fn close(self, flushed: Entry, closed: Entry, tail: Entry, finalized: bool) -> Disc
        ensures { result ≡ affected self (Close flushed closed tail finalized) }
    {
        Disc {
            finalized,
            ..self.flush(flushed).with_entry(closed).with_entry(tail)
        }
    }

    // The disc with sectors gathered in a fragment, those of another one flushed before.
    #[tactic(auto, unfolding(crate::specs::Apply::affected))]
    pub(crate) fn grow(self, flushed: Entry, grown: Entry, pending: u8, owner: u8) -> Disc
        ensures { result ≡ affected self (Grow flushed grown pending owner) }
    {
        Disc {
            pending,
            owner,
            ..self.with_entry(flushed).with_entry(grown)
        }
    }

    // The disc after an effect.
    #[tactic(auto, unfolding(crate::specs::Apply::affected))]
    pub(crate) fn affected(self, effect: Effect) -> Disc
        ensures { result ≡ affected self effect }
    {
        match effect {
            Effect::Keep => self,
            Effect::Settle { flushed } => self.flush(flushed),
            Effect::Reserve { reserved, tail } => self.reserve(reserved, tail),
            Effect::Close {
                flushed,
                closed,
                tail,
                finalized,
            } => self.close(flushed, closed, tail, finalized),
            Effect::Grow {
                flushed,
                grown,
                pending,
                owner,
            } => self.grow(flushed, grown, pending, owner),
        }
    }

    // The disc after a change.
    #[tactic(auto, unfolding(crate::specs::Apply::changed))]
    pub fn changed(self, change: Change) -> Disc
        ensures { result ≡ changed self change }
    {
        self.affected(change.effect).with_sense(change.sense)
    }

    // The verdict that a decision comes to.
    #[tactic(auto, unfolding(crate::specs::Apply::decided))]
    pub fn decided(self, decision: Decision) -> Verdict
        ensures { result ≡ decided self decision }
    {
        Verdict {
            answer: decision.answer,
            disc: self.changed(decision.change),
            reply: decision.reply,
            recorded: decision.recorded,
            plan: decision.plan,
        }
    }
}
