// The record reader: a struct that holds the trace and a position in it. Each function over it takes it apart and leaves the work to
// `find_record`, which has the slice and the number as parameters.
ghost use Rattle.std.specs.Prelude.{◌≡◌};
ghost use Rattle.trace.specs.Record.{step_at};

use crate::record;
use crate::record::Step;

// It is no iterator: that would end without saying why and where.
#[derive(Clone, Copy)]
pub struct RecordReader<'a> {
    pub trace: &'a [u8],
    pub at: usize,
}

impl<'a> RecordReader<'a> {
    // At the beginning of a trace.
    pub fn new(trace: &'a [u8]) -> RecordReader<'a>
        ensures { (result.trace ≡ trace.entry) × (result.at ≡ 0) }
    {
        RecordReader { trace, at: 0 }
    }

    // The same trace at another position, as that after a record.
    pub fn moved(self, at: usize) -> RecordReader<'a>
        ensures { (result.trace ≡ self.entry.trace) × (result.at ≡ at) }
    {
        RecordReader {
            trace: self.trace,
            at,
        }
    }

    // What stands at the position: the next twelve bytes, or why there are none.
    pub fn step(self) -> Step
        ensures { result ≡ step_at self.entry.trace.now self.entry.at }
    {
        record::find_record(self.trace, self.at)
    }
}

// What a record reader says at a position of a trace. Whoever calls this has no reader to hold.
pub fn read_at(trace: &[u8], at: usize) -> Step
    ensures { result ≡ step_at trace.now at }
{
    RecordReader::new(trace).moved(at).step()
}
