// What a command makes of one record.
ghost use Rattle.std.specs.Prelude.{◌≡◌, ◌+◌, ◌^◌, ◌≤◌, ◌<◌};
ghost use Rattle.fragments.specs.Address.{sectors_in, whole_blocks};
ghost use Rattle.fragments.specs.Fragment.{first_unrecorded};
ghost use Rattle.commands.specs.Flush.{flushed_record};
ghost use Rattle.commands.specs.Write.{grown_record};
ghost use Rattle.commands.specs.Close.{filled_record};

use fragments::{Block, Fragment};

// The first block that is not recorded.
pub(crate) fn first_unrecorded(f: Fragment) -> Block
    requires { f.start.0 + f.recorded < 2 ^ 32 }
    ensures { result ≡ first_unrecorded f }
{
    Block(f.start.0 + f.recorded)
}

// The record whose pending block, so many sectors of it given, is recorded with zeros for the missing ones.
pub(crate) fn flushed(mut f: Fragment, pending: u8) -> Fragment
    requires { (pending < 16) × (f.recorded < 2 ^ 24) × (f.zeroed ≤ sectors_in f.recorded) }
    ensures { result ≡ flushed_record pending f }
{
    f.recorded += 1;
    f.zeroed += fragments::missing(usize::from(pending)) as u32;
    f
}

// The record with the blocks recorded that so many sectors fill.
pub(crate) fn grown(mut f: Fragment, sectors: usize) -> Fragment
    requires { f.recorded + whole_blocks sectors < 2 ^ 24 }
    ensures { result ≡ grown_record (whole_blocks sectors) f }
{
    f.recorded += fragments::whole_blocks(sectors) as u32;
    f
}

// The record with all its blocks recorded, the missing ones as zeros.
pub(crate) fn filled(mut f: Fragment) -> Fragment
    requires { (f.recorded ≤ f.length) × (f.length < 2 ^ 24) × (f.zeroed ≤ sectors_in f.recorded) }
    ensures { result ≡ filled_record f }
{
    f.zeroed += fragments::sectors_in(f.length - f.recorded) as u32;
    f.recorded = f.length;
    f
}
