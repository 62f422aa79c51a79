// An entry of the table of contents.
ghost use Rattle.std.specs.Prelude.{◌≡◌};
ghost use Rattle.features.specs.Bytes.{bytes32};
ghost use Rattle.contents.specs.Entry.{time_bytes, entry};

use fragments::Lba;

// Bytes of an entry.
pub const LENGTH: usize = 8;

// ADR 1 in the high four bits, CTL 4 in the low ones.
const ADR_CTL: u8 = 0x14;

// The address whose time is 255:59:74, the last one that three bytes hold.
const LAST_TIMED: u64 = 1151849;

// Frames of a second and of a minute; address 0 has the time of two seconds.
const SECOND: u64 = 75;

const MINUTE: u64 = 4500;

const PREGAP: u64 = 150;

// An address as a number, the highest byte first.
fn number_bytes(address: u64) -> [u8; 4]
    ensures { result ≡ bytes32 address }
{
    ((address % 0x100000000) as u32).to_be_bytes()
}

// An address as a time; one past the last time has that one.
fn time_bytes(address: u64) -> [u8; 4]
    ensures { result ≡ time_bytes address }
{
    let frames = address.min(LAST_TIMED) + PREGAP;
    [
        0,
        (frames / MINUTE) as u8,
        (frames / SECOND % 60) as u8,
        (frames % SECOND) as u8,
    ]
}

// The entry of a number and an address; with the time bit set the address is a time.
pub(crate) fn entry(time: u8, number: u8, address: Lba) -> [u8; LENGTH]
    ensures { result ≡ entry time number address }
{
    let [a, b, c, d] = if time == 0 {
        number_bytes(address.0)
    } else {
        time_bytes(address.0)
    };
    [0, ADR_CTL, number, 0, a, b, c, d]
}
