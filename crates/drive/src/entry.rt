// One command: the link's tests of what is lent, the decision, and the bytes moved by its plan.
ghost use Rattle.std.specs.Prelude.{◌≡◌};
ghost use Rattle.drive.specs.Step.{drive, request, declined, Feasible, CarriedOut, AnsweredByChange, Answered};

use crate::{reply, transfer};
use decisions::{Change, Decision, Effect};
use disc::Disc;
use protocol::{Answer, BLOCK_LENGTH, CDB_LENGTH, LinkRefusal, Sense};

// The answer to a command: how it ended, the disc afterwards, the reply's length and the number of blocks recorded.
// Two types, this one and the next: they differ in a field's name and meaning, `disc` and `change`. `length`: the C interface hands it out.
#[derive(Clone, Copy)]
pub struct Response {
    pub answer: Answer,
    pub disc: Disc,
    pub length: usize,
    pub recorded: u32,
}

// The same with what the command changes of the disc in place of the disc.
#[derive(Clone, Copy)]
pub struct Outcome {
    pub answer: Answer,
    pub change: Change,
    pub length: usize,
    pub recorded: u32,
}

// Refused on the link, before the disc decides: nothing changes.
fn refused(sense: Sense, refusal: LinkRefusal) -> Outcome
    ensures { result ≡ declined sense refusal }
{
    Outcome {
        answer: Answer::Link(refusal),
        change: Change {
            sense,
            effect: Effect::Keep,
        },
        length: 0,
        recorded: 0,
    }
}

// Sends the reply, then moves the bytes that the plan names.
fn carry_out(
    decision: Decision,
    data: &[u8],
    medium: &mut [u8],
    pending: &mut [u8; BLOCK_LENGTH],
    reply: &mut [u8],
) -> Outcome
    requires { Feasible decision.plan decision.reply «data».now medium.old pending.old reply.old }
    ensures { CarriedOut decision «data».now medium.old pending.old reply.old
        result medium.new pending.new reply.new }
{
    let length = reply::send(
        decision.plan.transfer,
        decision.reply,
        medium,
        pending,
        reply,
    );
    transfer::carry_out(decision.plan, data, medium, pending);
    Outcome {
        answer: decision.answer,
        change: decision.change,
        length,
        recorded: decision.recorded,
    }
}

// Serves one command: the command block, its data, the disc by value, and the lent medium, pending buffer and reply buffer. A caller that
// keeps the disc in another form applies the change there.
pub fn serve(
    cdb: &[u8],
    data: &[u8],
    disc: Disc,
    medium: &mut [u8],
    pending: &mut [u8],
    reply: &mut [u8],
) -> Outcome
    ensures { AnsweredByChange (drive disc medium.old pending.old)
        (request cdb.now «data».now reply.old)
        result medium.new pending.new reply.new }
{
    if cdb.len() != CDB_LENGTH {
        return refused(disc.sense, LinkRefusal::CommandBlockLength);
    }
    if medium.len() != BLOCK_LENGTH * (disc.capacity as usize) {
        return refused(disc.sense, LinkRefusal::MediumSize);
    }
    let Some(pending) = pending.as_mut_array() else {
        return refused(disc.sense, LinkRefusal::MediumSize);
    };
    let decision = commands::decide(disc, cdb, data.len(), reply.len());
    carry_out(decision, data, medium, pending, reply)
}

// The same with the disc afterwards, by value.
pub fn command(
    cdb: &[u8],
    data: &[u8],
    disc: Disc,
    medium: &mut [u8],
    pending: &mut [u8],
    reply: &mut [u8],
) -> Response
    ensures { Answered (drive disc medium.old pending.old)
        (request cdb.now «data».now reply.old)
        result medium.new pending.new reply.new }
{
    let outcome = serve(cdb, data, disc, medium, pending, reply);
    Response {
        answer: outcome.answer,
        disc: disc.changed(outcome.change),
        length: outcome.length,
        recorded: outcome.recorded,
    }
}
