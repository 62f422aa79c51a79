// CLOSE TRACK/SESSION (5Bh): of a fragment (001) here, of the session (010) and of the disc (110) in session.rt.
ghost use Rattle.std.specs.Prelude.{◌≡◌, ◌≤◌};
ghost use Rattle.commands.specs.Conclusion.{concluded};
ghost use Rattle.commands.specs.Types.{Reserved, Appended};
ghost use Rattle.disc.specs.Records.{used, numbered};
ghost use Rattle.disc.specs.Apply.{decided};
ghost use Rattle.commands.specs.Flush.{flush, flushing};
ghost use Rattle.commands.specs.Close.{close_incomplete, close_fragment, close};

use crate::change;
use crate::ready::ReadyDisc;
use decisions::{Decision, Effect, Flushing, Plan, Transfer};
use fragments::{Entry, Kind};
use protocol::{DriveRefusal, Reply};

impl ReadyDisc {
    // An incomplete reserved fragment is closed, given with its number and its record after the flush. What `first` is stays a clause: in a struct of disc and
    // flush it would be a ghost field, at the price of one more copy of the records or of a second reference in every clause.
    fn close_reserved(&self, first: Flushing, entry: Entry) -> Decision
        requires first_value { first ≡ flushing self.now.disc }
        requires le_number { (1 ≤ entry.number) × (entry.number ≤ used (flush self.now.disc)) }
        requires record_value { entry.fragment ≡ numbered (flush self.now.disc) entry.number }
        ensures { decided self.now.disc result ≡ close_incomplete self.now.disc (flush self.now.disc) entry.number Reserved }
    {
        let f = entry.fragment;
        let blocks = f.length - f.recorded;
        let block = change::first_unrecorded(f);
        let transfer = Transfer::Fill { block, blocks };
        let plan = Plan::new(first.plan, transfer);
        let effect = Effect::Close {
            flushed: first.entry,
            closed: Entry::new(entry.number, change::filled(f)),
            tail: Entry::none(),
            finalized: self.disc.finalized,
        };
        Decision::accepted(effect, first.recorded + blocks, Reply::none(), plan)
    }

    // A written tail is closed, given with its number and its record after the flush.
    fn close_appended(&self, first: Flushing, entry: Entry) -> Decision
        requires first_value { first ≡ flushing self.now.disc }
        requires number_value { entry.number ≡ used (flush self.now.disc) }
        requires record_value { entry.fragment ≡ numbered (flush self.now.disc) entry.number }
        ensures { decided self.now.disc result ≡ close_incomplete self.now.disc (flush self.now.disc) entry.number Appended }
    {
        let plan = Plan::new(first.plan, Transfer::Nothing);
        let short = entry.fragment.shortened();
        let effect = Effect::Close {
            flushed: first.entry,
            closed: Entry::new(entry.number, short),
            tail: Entry::tail_after(self.disc.capacity, entry.number, short),
            finalized: self.disc.finalized,
        };
        Decision::accepted(effect, first.recorded, Reply::none(), plan)
    }

    // CLOSE of a fragment (001).
    #[tactic(auto, unfolding(crate::specs::Close::close_fragment))]
    fn close_fragment(&self, number: usize) -> Result<Decision, DriveRefusal>
        ensures { concluded self.now.disc result ≡ close_fragment self.now.disc number }
    {
        if !self.disc.is_listed(number) {
            return Err(DriveRefusal::InvalidFieldInCommand);
        }
        let before = self.disc.numbered(number);
        if self.disc.is_blank(number, before) {
            return Err(DriveRefusal::EmptyTrack);
        }
        let first = self.flushing();
        let fragment = first.entry.over(number, before);
        if fragment.is_complete() {
            return Ok(self.synchronize_cache());
        }
        let entry = Entry { number, fragment };
        match fragment.kind {
            Kind::Reserved => Ok(self.close_reserved(first, entry)),
            Kind::Appended => Ok(self.close_appended(first, entry)),
        }
    }

    // CLOSE TRACK/SESSION by its function: the command block's number, which the definition `close` compares as it is. An enum would only
    // have the same row a second time.
    #[tactic(auto, unfolding(crate::specs::Close::close))]
    pub(crate) fn close_track_session(
        &self,
        function: u8,
        number: usize,
    ) -> Result<Decision, DriveRefusal>
        ensures { concluded self.now.disc result ≡ close self.now.disc function number }
    {
        match function {
            0b001 => self.close_fragment(number),
            0b010 => self.close_session(),
            0b110 => self.finalize(),
            _ => Err(DriveRefusal::InvalidFieldInCommand),
        }
    }
}
