// INQUIRY (12h) and GET CONFIGURATION (46h): what the drive says it is, whatever its disc.
ghost use Rattle.std.specs.Prelude.{◌≡◌};
ghost use Rattle.disc.specs.Apply.{decided};
ghost use Rattle.reporting.specs.Identity.{inquiry, get_configuration};

use decisions::Decision;
use disc::Disc;
use protocol::{DriveRefusal, Reply};

// INQUIRY (12h): the standard data; no page is served. A Decision and no Result, here and below: the functions are public, and their
// promise `decided disc result` is of a decision, refused or not.
#[tactic(auto, using(disc::proofs::Laws::Apply::verdicts), unfolding(crate::specs::Identity::inquiry))]
pub fn inquiry(disc: Disc, page_bit: u8, allocation: u16) -> Decision
    ensures { decided disc result ≡ inquiry disc page_bit allocation }
{
    if page_bit != 0 {
        return Decision::refused(DriveRefusal::InvalidFieldInCommand);
    }
    Decision::unchanged(Reply::of_inquiry(usize::from(allocation)))
}

// GET CONFIGURATION (46h): request types 0 to 2.
#[tactic(auto, using(disc::proofs::Laws::Apply::verdicts), unfolding(crate::specs::Identity::get_configuration))]
pub fn get_configuration(disc: Disc, request_type: u8, start: u16, allocation: u16) -> Decision
    ensures { decided disc result ≡ get_configuration disc request_type start allocation }
{
    if request_type == protocol::FOURTH_REQUEST_TYPE {
        return Decision::refused(DriveRefusal::InvalidFieldInCommand);
    }
    Decision::unchanged(Reply::of_configuration(request_type, start, usize::from(allocation)))
}
