// A command as its command block says it: the fields that document 01 names and no other byte.
ghost use Rattle.std.specs.Prelude.{◌≡◌, ◌+◌, ◌≤◌};
ghost use Rattle.protocol.specs.Command.{byte_at, word16, word32, decode};

use fragments::Lba;

// The page bit, the types and the function are numbers: `decode` and the theorems over it name them as the block has them, those that the
// drive refuses too.
#[derive(Clone, Copy)]
pub enum Command {
    TestUnitReady,
    RequestSense {
        allocation: u8,
    },
    Inquiry {
        page_bit: u8,
        allocation: u16,
    },
    ReadCapacity,
    Read {
        address: Lba,
        length: u32,
    },
    Write {
        address: Lba,
        length: u32,
    },
    SynchronizeCache,
    ReserveTrack {
        size: u32,
    },
    CloseTrackSession {
        function: u8,
        number: u16,
    },
    GetConfiguration {
        request_type: u8,
        start: u16,
        allocation: u16,
    },
    ReadDiscInformation {
        data_type: u8,
        allocation: u16,
    },
    ReadTrackInformation {
        address_type: u8,
        number: u32,
        allocation: u16,
    },
    // Any opcode that document 01 does not list.
    Unlisted,
}

// The byte at a place of a command block; 0 where there is none.
fn byte_at(cdb: &[u8], at: usize) -> u8
    ensures { result ≡ byte_at cdb.now at }
{
    cdb.get(at).copied().unwrap_or(0)
}

// Two bytes from a place on, the highest first. No twin of `word32`: its library function and the size that this takes differ, and a
// const parameter would stand for these two calls.
fn word16(cdb: &[u8], at: usize) -> u16
    requires { at ≤ 12 }
    ensures { result ≡ word16 cdb.now at }
{
    u16::from_be_bytes([byte_at(cdb, at), byte_at(cdb, at + 1)])
}

// Four bytes from a place on, the highest first.
fn word32(cdb: &[u8], at: usize) -> u32
    requires { at ≤ 8 }
    ensures { result ≡ word32 cdb.now at }
{
    u32::from_be_bytes([
        byte_at(cdb, at),
        byte_at(cdb, at + 1),
        byte_at(cdb, at + 2),
        byte_at(cdb, at + 3),
    ])
}

impl Command {
    // The command of a command block; bytes that are missing count as 0. READ and WRITE have two forms each, (10) and (12), which
    // differ in nothing but the bytes of the length.
    #[tactic(auto, unfolding(crate::specs::Command::decode))]
    pub fn decode(cdb: &[u8]) -> Command
        ensures { result ≡ decode cdb.now }
    {
        match byte_at(cdb, 0) {
            0x00 => Command::TestUnitReady,
            0x03 => Command::RequestSense {
                allocation: byte_at(cdb, 4),
            },
            0x12 => Command::Inquiry {
                page_bit: byte_at(cdb, 1) % 2,
                allocation: word16(cdb, 3),
            },
            0x25 => Command::ReadCapacity,
            0x28 => Command::Read {
                address: Lba(u64::from(word32(cdb, 2))),
                length: u32::from(word16(cdb, 7)),
            },
            0x2A => Command::Write {
                address: Lba(u64::from(word32(cdb, 2))),
                length: u32::from(word16(cdb, 7)),
            },
            0x35 => Command::SynchronizeCache,
            0x46 => Command::GetConfiguration {
                request_type: byte_at(cdb, 1) % 4,
                start: word16(cdb, 2),
                allocation: word16(cdb, 7),
            },
            0x53 => Command::ReserveTrack {
                size: word32(cdb, 5),
            },
            0x5B => Command::CloseTrackSession {
                function: byte_at(cdb, 2) % 8,
                number: word16(cdb, 4),
            },
            0x51 => Command::ReadDiscInformation {
                data_type: byte_at(cdb, 1) % 8,
                allocation: word16(cdb, 7),
            },
            0x52 => Command::ReadTrackInformation {
                address_type: byte_at(cdb, 1) % 4,
                number: word32(cdb, 2),
                allocation: word16(cdb, 7),
            },
            0xA8 => Command::Read {
                address: Lba(u64::from(word32(cdb, 2))),
                length: word32(cdb, 6),
            },
            0xAA => Command::Write {
                address: Lba(u64::from(word32(cdb, 2))),
                length: word32(cdb, 6),
            },
            _ => Command::Unlisted,
        }
    }
}
