// READ (28h, A8h): the run must end within the disc, and every sector of it must be recorded or pending.
ghost use Rattle.std.specs.Prelude.{◌≡◌};
ghost use Rattle.commands.specs.Conclusion.{concluded};
ghost use Rattle.commands.specs.Read.{read};

use crate::ready::ReadyDisc;
use decisions::{Decision, Effect, Plan, Transfer};
use fragments::{Block, Lba};
use protocol::{DriveRefusal, Reply};

impl ReadyDisc {
    // READ: sends the run. A fragment's readable sectors are its recorded ones, on the medium, and after them those pending in it.
    #[tactic(auto, using(disc::proofs::Laws::Apply::unchanged_verdict), unfolding(crate::specs::Read::read))]
    pub(crate) fn read(&self, address: Lba, sectors: u32) -> Result<Decision, DriveRefusal>
        ensures { concluded self.now.disc result ≡ read self.now.disc address sectors }
    {
        if sectors == 0 {
            return Ok(Decision::unchanged(Reply::none()));
        }
        if address.passes(sectors, Block(self.disc.capacity).first_sector()) {
            return Err(DriveRefusal::AddressOutOfRange);
        }
        let reach = self.reach_around(address);
        if address.passes(sectors, reach.readable) {
            return Err(DriveRefusal::BlankCheck);
        }
        let recorded = address.sectors_before(sectors, reach.recorded);
        let transfer = Transfer::Send {
            address,
            recorded,
            place: Lba(address.0 + u64::from(recorded)).place(),
            pending: sectors - recorded,
        };
        let plan = Plan::new(None, transfer);
        Ok(Decision::accepted(Effect::Keep, 0, Reply::none(), plan))
    }
}
