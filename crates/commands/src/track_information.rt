// READ TRACK INFORMATION (52h): which fragment it reports. What it says of that one is decided in `reporting`.
ghost use Rattle.std.specs.Prelude.{◌≡◌};
ghost use Rattle.commands.specs.Conclusion.{concluded};
ghost use Rattle.reporting.specs.Reports.{read_track_information};

use crate::ready::ReadyDisc;
use decisions::Decision;
use fragments::Lba;
use protocol::DriveRefusal;

impl ReadyDisc {
    // By its address type, the command block's number: 0 for an address, 1 for a number. The definition compares it as it is; an enum would
    // only have the same row a second time.
    #[tactic(auto, unfolding(reporting::specs::Reports::read_track_information))]
    pub(crate) fn read_track_information(
        &self,
        address_type: u8,
        number: u32,
        allocation: u16,
    ) -> Result<Decision, DriveRefusal>
        ensures { concluded self.now.disc result ≡ read_track_information self.now.disc address_type number allocation }
    {
        match address_type {
            0 => {
                let found = self.at_address(Lba(u64::from(number)));
                Ok(reporting::track_found(self.disc, found, allocation))
            }
            1 => Ok(reporting::track_numbered(self.disc, number as usize, allocation)),
            _ => Err(DriveRefusal::InvalidFieldInCommand),
        }
    }
}
