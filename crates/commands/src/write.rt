// WRITE (2Ah, AAh): the decision, with its effect on the list and its plan for the data.
ghost use Rattle.std.specs.Prelude.{◌≡◌, cond, eqb, ◌≤◌};
ghost use Rattle.fragments.specs.List.{limit};
ghost use Rattle.disc.specs.Records.{numbered};
ghost use Rattle.disc.specs.Apply.{affected};
ghost use Rattle.commands.specs.Conclusion.{concluded};
ghost use Rattle.commands.specs.Write.{flush_others, flush_others_entry, gather, Gathering, write_to, Writable, write};

use crate::change;
use crate::ready::ReadyDisc;
use decisions::{Decision, Effect, Plan, Transfer};
use fragments::{Entry, Lba};
use protocol::{DriveRefusal, Reply};

// The number beside a pending count: the fragment's, or 0 with none pending, as the state that C keeps has it.
fn owner_of(pending: usize, number: usize) -> u8
    requires { number ≤ limit }
    ensures { result ≡ cond (eqb pending 0) 0 number }
{
    if pending == 0 {
        return 0;
    }
    number as u8
}

impl ReadyDisc {
    // More sectors gathered in a fragment, given with its number, after the flush that leaves `flushed`.
    fn gather(&self, flushed: Entry, entry: Entry, sectors: u32) -> Effect
        requires flushed_value { flushed ≡ flush_others_entry self.now.disc entry.number }
        requires gathering { Gathering self.now.disc entry.number sectors }
        requires record_value { entry.fragment ≡ numbered self.now.disc entry.number }
        ensures { affected self.now.disc result ≡ gather (flush_others self.now.disc entry.number) entry.number sectors }
    {
        let held = usize::from(self.disc.pending_in(entry.number)) + sectors as usize;
        let left = fragments::left_over(held);
        Effect::Grow {
            flushed,
            grown: Entry::new(entry.number, change::grown(entry.fragment, held)),
            pending: left as u8,
            owner: owner_of(left, entry.number),
        }
    }

    // A WRITE of 1 up at the next writable address of a fragment, given with its number.
    // That the record is the one with the number stays a clause, in two contracts over the disc and in two over the flushed one (close.rt).
    #[tactic(auto, unfolding(crate::specs::Write::write_to))]
    fn write_to(&self, address: Lba, sectors: u32, entry: Entry) -> Result<Decision, DriveRefusal>
        requires writable { Writable self.now.disc address entry.number }
        requires record_value { entry.fragment ≡ numbered self.now.disc entry.number }
        ensures { concluded self.now.disc result ≡ write_to self.now.disc address sectors entry.number }
    {
        if address.passes(sectors, entry.fragment.end_address()) {
            return Err(DriveRefusal::EndOfUserArea);
        }
        let pending = self.disc.pending_in(entry.number);
        let block = change::first_unrecorded(entry.fragment);
        let transfer = Transfer::Gather {
            block,
            pending,
            sectors,
        };
        let gathered = fragments::whole_blocks(usize::from(pending) + sectors as usize) as u32;
        let first = self.flushing_others(entry.number);
        let plan = Plan::new(first.plan, transfer);
        let effect = self.gather(first.entry, entry, sectors);
        Ok(Decision::accepted(effect, first.recorded + gathered, Reply::none(), plan))
    }

    // WRITE: goes to the fragment whose next writable address it names.
    #[tactic(auto, using(disc::proofs::Laws::Apply::unchanged_verdict), unfolding(crate::specs::Write::write, crate::specs::Write::write_found))]
    pub(crate) fn write(&self, address: Lba, sectors: u32) -> Result<Decision, DriveRefusal>
        ensures { concluded self.now.disc result ≡ write self.now.disc address sectors }
    {
        if sectors == 0 {
            return Ok(Decision::unchanged(Reply::none()));
        }
        if self.disc.finalized {
            return Err(DriveRefusal::WriteProtected);
        }
        let Some(holder) = self.writable_at(address) else {
            return Err(DriveRefusal::InvalidAddressForWrite);
        };
        self.write_to(address, sectors, holder)
    }
}
