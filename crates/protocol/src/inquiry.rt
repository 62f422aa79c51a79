// INQUIRY's standard data: what the drive is and its texts.
ghost use Rattle.std.specs.Prelude.{◌≡◌};
ghost use Rattle.protocol.specs.Reply.{report};
ghost use Rattle.protocol.specs.Inquiry.{inquiry_bytes};

use crate::lengths;
use crate::reply::Reply;

// What the drive is, then its texts, in ASCII and padded with spaces: vendor, product and revision.
const STANDARD_DATA: [u8; lengths::INQUIRY_LENGTH] = *b"\x05\x80\x00\x02\x1F\x00\x00\x00\
    GLADHAMR\
    DVD+R LOGGER    \
    1.00";

impl Reply {
    // INQUIRY's reply.
    #[tactic(auto, unfolding(crate::specs::Inquiry::inquiry_bytes))]
    pub fn of_inquiry(allocation: usize) -> Reply
        ensures { result ≡ report inquiry_bytes allocation }
    {
        Reply::report(&STANDARD_DATA, allocation)
    }
}
