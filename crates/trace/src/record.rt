// The record that stands at a position of a trace.
ghost use Rattle.std.specs.Prelude.{◌≡◌, ◌≤◌, length, OnOk};
ghost use Rattle.trace.specs.Record.{reading_of, step_at};

// The two bytes in front of a command block.
const FIRST_MARK: u8 = 0xA5;

const SECOND_MARK: u8 = 0x5A;

const MARK_LENGTH: usize = 2;

// Bytes of a command block.
pub const CDB_LENGTH: usize = 12;

// Bytes of a record: the mark and the command block.
pub const RECORD_LENGTH: usize = MARK_LENGTH + CDB_LENGTH;

// A record's command block, and the position after it.
#[derive(Clone, Copy)]
pub struct Record {
    pub cdb: [u8; CDB_LENGTH],
    pub next: usize,
}

// Why no record stands at a position.
#[derive(Clone, Copy)]
pub enum Reason {
    // A mark byte that is there is wrong.
    BadMark,
    // 1 to 13 bytes are left, the mark right as far as it is there.
    CutShort,
    // Nothing is left.
    End,
}

// Where a trace stops, and why.
#[derive(Clone, Copy)]
pub struct Stop {
    pub reason: Reason,
    pub at: usize,
}

// What stands at a position: a record, or why there is none.
pub type Step = Result<Record, Stop>;

// The command block of the record at the front of the bytes that are left.
#[tactic(auto, unfolding(crate::specs::Record::reading_of, crate::specs::Record::bad_mark))]
fn front(left: &[u8]) -> Result<[u8; CDB_LENGTH], Reason>
    ensures reading { result ≡ reading_of left.now }
    ensures long { OnOk result (14 ≤ length left.now) }
{
    match left {
        [] => Err(Reason::End),
        [FIRST_MARK] => Err(Reason::CutShort),
        [FIRST_MARK, SECOND_MARK, rest @ ..] => rest.first_chunk().copied().ok_or(Reason::CutShort),
        _ => Err(Reason::BadMark),
    }
}

// What stands at a position of a trace: the covered part of the reader. A position past the end is the end.
#[tactic(auto, unfolding(crate::specs::Record::step_at, crate::specs::Record::step_of))]
pub(crate) fn find_record(trace: &[u8], at: usize) -> Step
    ensures { result ≡ step_at trace.now at }
{
    let left = trace.get(at..).unwrap_or(&[]);
    let cdb = front(left).map_err(|reason| Stop { reason, at })?;
    Ok(Record {
        cdb,
        next: at + RECORD_LENGTH,
    })
}
