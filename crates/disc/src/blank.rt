// The blank disc.
ghost use Rattle.std.specs.Prelude.{◌≡◌};
ghost use Rattle.disc.specs.Blank.{in_range, zero_state, Blanked};

use crate::state::Disc;
use fragments::{Fragment, Kind};
use protocol::{Answer, LinkRefusal, Sense};

// A new disc with the answer beside it. Not a Result: with the refusal L2 comes the all-zero state, whose image C is given.
#[derive(Clone, Copy, PartialEq, Eq, Debug)]
pub struct Blank {
    pub answer: Answer,
    pub disc: Disc,
}

impl Disc {
    // The all-zero state.
    pub(crate) fn zero() -> Disc
        ensures { result ≡ zero_state }
    {
        Disc {
            fragments: [Fragment::unused(); Disc::LIMIT],
            capacity: 0,
            finalized: false,
            sense: Sense::none(),
            pending: 0,
            owner: 0,
        }
    }

    // Whether a disc can have that many blocks.
    pub fn in_range(capacity: u32) -> bool
        ensures { result ≡ in_range capacity }
    {
        (Disc::SMALLEST..=Disc::LARGEST).contains(&capacity)
    }

    // The blank disc of a capacity; for a capacity out of range L2 and the all-zero state.
    #[tactic(auto, unfolding(crate::specs::Blank::made, crate::specs::Blank::blank))]
    pub fn blank(capacity: u32) -> Blank
        ensures { Blanked capacity result }
    {
        let zero = Disc::zero();
        if !Disc::in_range(capacity) {
            return Blank {
                answer: Answer::Link(LinkRefusal::MediumSize),
                disc: zero,
            };
        }
        let mut disc = Disc { capacity, ..zero };
        disc.fragments[0] = Fragment {
            session: 1,
            length: capacity,
            kind: Kind::Appended,
            ..Fragment::unused()
        };
        Blank {
            answer: Answer::Accepted,
            disc,
        }
    }
}
