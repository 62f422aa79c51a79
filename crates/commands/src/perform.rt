// What each command is decided to, past the link.
ghost use Rattle.std.specs.Prelude.{◌≡◌};
ghost use Rattle.commands.specs.Conclusion.{concluded};
ghost use Rattle.commands.specs.Judge.{perform};

use crate::ready::ReadyDisc;
use decisions::Decision;
use protocol::{Command, DriveRefusal, Reply};

impl ReadyDisc {
    // Each listed command; an opcode that is not listed is refused.
    #[tactic(auto, using(disc::proofs::Laws::Apply::unchanged_verdict), unfolding(crate::specs::Judge::perform, crate::specs::Judge::test_unit_ready))]
    pub(crate) fn perform(&self, command: Command) -> Result<Decision, DriveRefusal>
        ensures { concluded self.now.disc result ≡ perform self.now.disc command }
    {
        match command {
            Command::TestUnitReady => Ok(Decision::unchanged(Reply::none())),
            Command::RequestSense { allocation } => Ok(reporting::request_sense(
                self.disc, allocation,
            )),
            Command::Inquiry {
                page_bit,
                allocation,
            } => Ok(reporting::inquiry(self.disc, page_bit, allocation)),
            Command::ReadCapacity => Ok(reporting::read_capacity(self.disc)),
            Command::Read { address, length } => self.read(address, length),
            Command::Write { address, length } => self.write(address, length),
            Command::SynchronizeCache => Ok(self.synchronize_cache()),
            Command::ReserveTrack { size } => self.reserve_track(size),
            Command::CloseTrackSession { function, number } => {
                self.close_track_session(function, usize::from(number))
            }
            Command::GetConfiguration {
                request_type,
                start,
                allocation,
            } => Ok(reporting::get_configuration(self.disc, request_type, start, allocation)),
            Command::ReadDiscInformation {
                data_type,
                allocation,
            } => Ok(reporting::read_disc_information(self.disc, data_type, allocation)),
            Command::ReadTrackInformation {
                address_type,
                number,
                allocation,
            } => self.read_track_information(address_type, number, allocation),
            Command::Unlisted => Err(DriveRefusal::InvalidOperationCode),
        }
    }
}
