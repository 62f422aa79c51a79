// Hands the drive what a loose plug might deliver, and prints the number of each answer: 1 to 4 for L1 to L4; key, ASC and ASCQ in
// a row for a refusal by the drive.
// A program has no room for a medium. So the entry is called on tiny buffers, which end at L1 or L2, and what is decided after them is
// asked of `commands`, on lengths alone.
#![tactic(auto)]

use disc::Disc;
use protocol::{Answer, BLOCK_LENGTH, CDB_LENGTH, SECTOR_LENGTH};
use std::io;

// Bytes of a medium and a pending buffer that go with no disc.
const TINY: usize = 16;

// More sectors than can be pending: with sixteen a block is recorded.
const TOO_MANY: u8 = 16;

// Lengths beside that of a sector, and that of the 256 sectors that READ (12) and WRITE (12) ask for.
const SHORT: usize = SECTOR_LENGTH - 1;

const LONG: usize = SECTOR_LENGTH + 1;

const WHOLE: usize = 256 * SECTOR_LENGTH;

// A line: what was tried, how many bytes of it, and the number of the answer.
fn print(rt: &impl Print, name: &str, length: usize, answer: Answer) -> io::Result<()> {
    let number = answer.number();
    println!(rt; "{name} {length}: {number:06x}")
}

// The entry's answer to a command block without data.
fn ask(cdb: &[u8], disc: Disc, medium: &mut [u8], pending: &mut [u8]) -> Answer {
    drive::command(cdb, &[], disc, medium, pending, &mut [0; 8]).answer
}

// Command blocks of 0 to 20 bytes, with a medium and a pending buffer of a few bytes: L1, and L2 where the length is right.
fn ask_cdbs(rt: &impl Print, disc: Disc) -> io::Result<()> {
    let bytes = [0; 20];
    for length in 0..=20 {
        let answer = ask(&bytes[..length], disc, &mut [0; TINY], &mut [0; TINY]);
        print(rt, "command block", length, answer)?;
    }
    Ok(())
}

// The all-zero state: no bytes are a medium of no blocks, and a whole pending buffer is right; its capacity is not.
fn ask_zero_state(rt: &impl Print) -> io::Result<()> {
    let disc = Disc::blank(0).disc;
    let cdb = [0; CDB_LENGTH];
    let mut pending = [0; BLOCK_LENGTH];
    for length in BLOCK_LENGTH - 1..=BLOCK_LENGTH {
        let answer = ask(&cdb, disc, &mut [], &mut pending[..length]);
        print(rt, "pending", length, answer)?;
    }
    print(rt, "medium", 1, ask(&cdb, disc, &mut [0], &mut pending))
}

// What is decided about an opcode with address 256, length 1 and, for REQUEST SENSE, allocation length 1. READ (12) and WRITE (12) have a
// length of 256 in the same block.
fn decide(disc: Disc, opcode: u8, data: usize, reply: usize) -> Answer {
    let cdb = [opcode, 0, 0, 0, 1, 0, 0, 0, 1, 0, 0, 0];
    commands::judge(disc, &cdb, data, reply).answer
}

// Data or a reply of wrong lengths, of which the other one has no bytes: L4, and what the drive says where they are right.
fn ask_lengths(rt: &impl Print, disc: Disc) -> io::Result<()> {
    for (name, opcode, data, reply) in [
        ("WRITE with data of", 0x2a, SHORT, 0),
        ("WRITE with data of", 0x2a, LONG, 0),
        ("WRITE with data of", 0x2a, SECTOR_LENGTH, 0),
        ("READ into", 0x28, 0, SHORT),
        ("READ into", 0x28, 0, SECTOR_LENGTH),
        ("REQUEST SENSE into", 0x03, 0, 0),
        ("REQUEST SENSE into", 0x03, 0, 1),
        ("READ CAPACITY into", 0x25, 0, 7),
        ("READ CAPACITY into", 0x25, 0, 8),
        ("unlisted opcode with data of", 0xff, 1, 0),
        ("unlisted opcode with data of", 0xff, 0, 0),
        ("WRITE (12) with data of", 0xaa, SECTOR_LENGTH, 0),
        ("WRITE (12) with data of", 0xaa, WHOLE, 0),
        ("READ (12) into", 0xa8, 0, SECTOR_LENGTH),
        ("READ (12) into", 0xa8, 0, WHOLE),
    ] {
        let answer = decide(disc, opcode, data, reply);
        print(rt, name, data.max(reply), answer)?;
    }
    Ok(())
}

// A state that breaks a rule: sixteen sectors pending.
fn ask_unsound(rt: &impl Print, disc: Disc) -> io::Result<()> {
    let unsound = Disc {
        pending: TOO_MANY,
        ..disc
    };
    let answer = decide(unsound, 0x00, 0, 0);
    print(rt, "state with pending", usize::from(TOO_MANY), answer)
}

fn main(rt: HostRuntime) -> io::Result<()> {
    let disc = Disc::blank(300).disc;
    ask_cdbs(&rt, disc)?;
    ask_zero_state(&rt)?;
    ask_lengths(&rt, disc)?;
    ask_unsound(&rt, disc)
}
