// The flush, and SYNCHRONIZE CACHE (35h), which flushes and does nothing else.
ghost use Rattle.std.specs.Prelude.{◌≡◌};
ghost use Rattle.disc.specs.Apply.{decided};
ghost use Rattle.commands.specs.Flush.{flushing, synchronize_cache};
ghost use Rattle.commands.specs.Write.{flushing_others};

use crate::change;
use crate::ready::ReadyDisc;
use decisions::{Decision, Effect, Flush, Flushing, Plan, Transfer};
use fragments::Entry;
use protocol::Reply;

impl ReadyDisc {
    // The flush of the pending block; nothing happens with none pending.
    #[tactic(auto, unfolding(crate::specs::Flush::flush_entry, crate::specs::Flush::flush_plan, crate::specs::Flush::flush_count))]
    pub(crate) fn flushing(&self) -> Flushing
        ensures { result ≡ flushing self.now.disc }
    {
        let sectors = self.disc.pending;
        if sectors == 0 {
            return Flushing::none();
        }
        let owner = usize::from(self.disc.owner);
        let f = self.disc.numbered(owner);
        let block = change::first_unrecorded(f);
        Flushing {
            entry: Entry::new(owner, change::flushed(f, sectors)),
            plan: Some(Flush { block, sectors }),
            recorded: 1,
        }
    }

    // The flush of sectors that are pending in any other fragment.
    #[tactic(auto, unfolding(crate::specs::Write::flush_others_entry, crate::specs::Write::flush_others_plan, crate::specs::Write::flush_others_count))]
    pub(crate) fn flushing_others(&self, number: usize) -> Flushing
        ensures { result ≡ flushing_others self.now.disc number }
    {
        if usize::from(self.disc.owner) == number {
            return Flushing::none();
        }
        self.flushing()
    }

    // SYNCHRONIZE CACHE: the flush.
    pub(crate) fn synchronize_cache(&self) -> Decision
        ensures { decided self.now.disc result ≡ synchronize_cache self.now.disc }
    {
        let first = self.flushing();
        let effect = Effect::Settle {
            flushed: first.entry,
        };
        let plan = Plan::new(first.plan, Transfer::Nothing);
        Decision::accepted(effect, first.recorded, Reply::none(), plan)
    }
}
