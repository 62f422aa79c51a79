// REQUEST SENSE (03h): the sense that the command before it left.
ghost use Rattle.std.specs.Prelude.{◌≡◌};
ghost use Rattle.disc.specs.Apply.{decided};
ghost use Rattle.reporting.specs.Reports.{request_sense};

use decisions::Decision;
use disc::Disc;
use protocol::Reply;

// REQUEST SENSE (03h): the sense as the command finds it.
#[tactic(auto, using(disc::proofs::Laws::Apply::verdicts), unfolding(crate::specs::Reports::request_sense))]
pub fn request_sense(disc: Disc, allocation: u8) -> Decision
    ensures { decided disc result ≡ request_sense disc allocation }
{
    Decision::unchanged(Reply::of_sense(disc.sense, usize::from(allocation)))
}
