// The sectors that a decided READ sends: a part of the lent medium, then a part of the pending buffer, whose bytes are not looked at.
ghost use Rattle.std.specs.Prelude.{◌≡◌};
ghost use Rattle.decisions.specs.Run.{stretch_within, sent_within, pending_within};

use crate::plan::Transfer;

// So many sectors of a buffer, from a sector of it on; none where the buffer does not have them.
fn stretch_within<'a>(first: u64, sectors: u32, bytes: &'a [u8]) -> &'a [u8]
    ensures { result.now ≡ stretch_within first sectors bytes.now }
{
    let end = (bytes.len() / protocol::SECTOR_LENGTH) as u64;
    if first > end {
        return &bytes[..0];
    }
    if end - first < u64::from(sectors) {
        return &bytes[..0];
    }
    let from = protocol::SECTOR_LENGTH * (first as usize);
    let to = from + protocol::SECTOR_LENGTH * (sectors as usize);
    &bytes[from..to]
}

impl Transfer {
    // The recorded sectors that a decided READ sends, in place: a part of the medium lent. An empty part for every other transfer, and where
    // the medium does not have them.
    #[tactic(auto, unfolding(crate::specs::Run::sent_within))]
    pub fn run<'a>(self, medium: &'a [u8]) -> &'a [u8]
        ensures { result.now ≡ sent_within self medium.now }
    {
        match self {
            Transfer::Send {
                address,
                recorded,
                ..
            } => stretch_within(address.0, recorded, medium),
            _ => &medium[..0],
        }
    }

    // The pending sectors that it sends after them, in place: a part of the pending buffer, empty as above. No twin of `run`: each names its
    // own two fields, and `stretch_within` is all else.
    #[tactic(auto, unfolding(crate::specs::Run::pending_within))]
    pub fn pending_run<'a>(self, buffer: &'a [u8]) -> &'a [u8]
        ensures { result.now ≡ pending_within self buffer.now }
    {
        match self {
            Transfer::Send { place, pending, .. } => stretch_within(
                u64::from(place),
                pending,
                buffer,
            ),
            _ => &buffer[..0],
        }
    }
}
