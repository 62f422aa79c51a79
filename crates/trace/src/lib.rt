// Traces: records one after another, each the mark A5h 5Ah and the twelve bytes of a command block.
// A record reader over the lent bytes gives the next twelve from a position on, or says why there are none.
#![tactic(auto)]

mod reader;
mod record;

pub use reader::{RecordReader, read_at};
pub use record::{CDB_LENGTH, RECORD_LENGTH, Reason, Record, Step, Stop};
