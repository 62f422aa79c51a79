// The head of an image: all of a disc state but its records.
ghost use Rattle.std.specs.Prelude.{◌≡◌};
ghost use Rattle.gladhamre.specs.Image.{head_fits, head_words};

use disc::Disc;

// Words of the head, and where those after the capacity lie.
pub(crate) const HEAD: usize = 7;

pub(crate) const FINALIZED: usize = 1;

pub(crate) const KEY: usize = 2;

pub(crate) const ASC: usize = 3;

pub(crate) const ASCQ: usize = 4;

pub(crate) const PENDING: usize = 5;

pub(crate) const OWNER: usize = 6;

// Whether it has a flag and bytes where it must.
pub(crate) fn fits(head: &[u32; HEAD]) -> bool
    ensures { result ≡ head_fits head.now }
{
    (head[FINALIZED] < 2) & head[KEY..].iter().all(|byte| *byte < 256)
}

// The head of a state.
pub(crate) fn write(head: &mut [u32; HEAD], disc: &Disc)
    ensures { head.new ≡ head_words disc.now }
{
    *head = [
        disc.capacity,
        u32::from(disc.finalized),
        u32::from(disc.sense.key),
        u32::from(disc.sense.asc),
        u32::from(disc.sense.ascq),
        u32::from(disc.pending),
        u32::from(disc.owner),
    ];
}
