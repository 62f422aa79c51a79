// READ CAPACITY (25h): the last readable address.
ghost use Rattle.std.specs.Prelude.{◌≡◌};
ghost use Rattle.disc.specs.Apply.{decided};
ghost use Rattle.reporting.specs.Reports.{read_capacity};

use decisions::Decision;
use disc::Disc;
use protocol::Reply;

// READ CAPACITY (25h): the last readable address.
#[tactic(auto, using(disc::proofs::Laws::Apply::verdicts), unfolding(crate::specs::Reports::read_capacity))]
pub fn read_capacity(disc: Disc) -> Decision
    ensures { decided disc result ≡ read_capacity disc }
{
    Decision::unchanged(Reply::of_capacity(disc.last_readable()))
}
