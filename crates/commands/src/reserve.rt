// RESERVE TRACK (53h): the blank tail becomes a reserved fragment and a tail after it.
ghost use Rattle.std.specs.Prelude.{◌≡◌};
ghost use Rattle.fragments.specs.List.{last_of};
ghost use Rattle.disc.specs.Apply.{affected};
ghost use Rattle.commands.specs.Conclusion.{concluded};
ghost use Rattle.commands.specs.Reserve.{Splitting, split_tail, reserve};

use crate::ready::ReadyDisc;
use decisions::{Decision, Effect, Plan};
use disc::Disc;
use fragments::Entry;
use protocol::{DriveRefusal, Reply};

impl ReadyDisc {
    // The blank tail, the last record, as a reserved fragment of so many blocks, with a tail after it.
    fn split_tail(&self, last: Entry, blocks: u32) -> Effect
        requires splitting { Splitting self.now.disc blocks }
        requires last_value { last ≡ last_of self.now.disc.fragments }
        ensures { affected self.now.disc result ≡ split_tail self.now.disc blocks }
    {
        let f = last.fragment.reserved(blocks);
        let reserved = Entry::new(last.number, f);
        let tail = Entry::tail(
            self.disc.capacity,
            last.number + 1,
            f.session,
            f.next_start(),
        );
        Effect::Reserve { reserved, tail }
    }

    // RESERVE TRACK: its refusals in order, then the tail is split.
    #[tactic(auto, unfolding(crate::specs::Reserve::reserve))]
    pub(crate) fn reserve_track(&self, size: u32) -> Result<Decision, DriveRefusal>
        ensures { concluded self.now.disc result ≡ reserve self.now.disc size }
    {
        if self.disc.finalized {
            return Err(DriveRefusal::WriteProtected);
        }
        if (size == 0) | (fragments::left_over(size as usize) != 0) {
            return Err(DriveRefusal::InvalidFieldInCommand);
        }
        let last = self.disc.last();
        if !self.disc.is_blank_tail(last) {
            return Err(DriveRefusal::NoMoreReservations);
        }
        if last.number == Disc::LIMIT {
            return Err(DriveRefusal::NoMoreReservations);
        }
        let blocks = fragments::whole_blocks(size as usize) as u32;
        if u64::from(self.disc.capacity) <= last.fragment.reserved(blocks).next_start().0 {
            return Err(DriveRefusal::EndOfUserArea);
        }
        let effect = self.split_tail(last, blocks);
        Ok(Decision::accepted(effect, 0, Reply::none(), Plan::none()))
    }
}
