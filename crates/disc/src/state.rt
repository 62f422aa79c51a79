// The disc state. It goes into every command and comes back from it by value.
ghost use Rattle.std.specs.Prelude.{◌≡◌};
ghost use Rattle.disc.specs.Records.{with_sense};

use fragments::Fragment;
use protocol::Sense;

#[derive(Clone, Copy, PartialEq, Eq, Debug)]
pub struct Disc {
    // The records in use first; the others are all zero.
    pub fragments: [Fragment; Disc::LIMIT],
    // Capacity in blocks (document 01's C).
    pub capacity: u32,
    pub finalized: bool,
    pub sense: Sense,
    // Pending sectors, 0 to 15: accepted, and their block not yet recorded.
    pub pending: u8,
    // The number of the fragment that they belong to, from 1 along the list; 0 with none pending. Two numbers and no Option: document 01's
    // state and its image in C have them so, and a state may hold any numbers.
    pub owner: u8,
}

impl Disc {
    // How many fragments a disc can have, the tail included.
    pub const LIMIT: usize = fragments::LIMIT;

    // The smallest and the largest capacity in blocks.
    pub const SMALLEST: u32 = 256;

    pub const LARGEST: u32 = 143_444;

    // The disc with another sense.
    pub(crate) fn with_sense(self, sense: Sense) -> Disc
        ensures { result ≡ with_sense self sense }
    {
        Disc { sense, ..self }
    }
}
