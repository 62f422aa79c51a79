// A decision applied to a disc.
use crate::state::Disc;
use decisions::Plan;
use protocol::{Answer, Reply};

// The answer, the disc after it, a report's bytes, the number of blocks recorded and what to do to the bytes.
// Not one generic type with `Decision`: the disc after a command and what it changes differ in name and meaning.
#[derive(Clone, Copy)]
pub struct Verdict {
    pub answer: Answer,
    pub disc: Disc,
    pub reply: Reply,
    pub recorded: u32,
    pub plan: Plan,
}
