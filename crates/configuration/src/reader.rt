// A reply taken apart. Its length and its first feature leave one reply that the drive can send; every byte is compared with that.
ghost use Rattle.std.specs.Prelude.{◌≡◌, cond, unwrap_or};
ghost use Rattle.features.specs.Feature.{selected};
ghost use Rattle.features.specs.Configuration.{configuration_bytes};
ghost use Rattle.configuration.specs.Reading.{reading, same_bytes, read_reply};
ghost use Rattle.configuration.specs.First.{first_feature};

use features::Asked;

// A starting number that leaves no feature: the reply to it has none.
const PAST_EVERY_FEATURE: u16 = 0xFFFF;

// What is read of a reply: the current profile, and the numbers of its features in order.
#[derive(Clone, Copy)]
pub struct Reading {
    pub profile: u32,
    pub features: Asked,
}

impl Reading {
    // Of a reply that is the whole one to a request.
    fn of(reply: &[u8], request_type: u8, start: u16) -> Option<Reading>
        ensures { result
            ≡ cond (same_bytes reply.now (configuration_bytes request_type start)) (Some (reading (selected request_type start))) None }
    {
        let whole = features::configuration(request_type, start);
        if reply != whole.as_slice() {
            return None;
        }
        Some(Reading {
            profile: features::PROFILE,
            features: features::numbers(request_type, start),
        })
    }
}

// The number of a reply's first feature.
fn first_feature(reply: &[u8]) -> Option<u16>
    ensures { unwrap_or result 0xFFFF ≡ first_feature reply.now }
{
    let number = reply.get(8..)?.first_chunk()?;
    Some(u16::from_be_bytes(*number))
}

// Reads a reply: it is the whole reply to a request for its first feature alone, or for all from that one on, or nothing is read.
pub fn read(reply: &[u8]) -> Option<Reading>
    ensures { result ≡ read_reply reply.now }
{
    let first = first_feature(reply).unwrap_or(PAST_EVERY_FEATURE);
    let alone = Reading::of(reply, features::ONE_FEATURE, first);
    alone.or_else(|| Reading::of(reply, features::ALL_FEATURES, first))
}
