// The C face: functions on numbers and slices of numbers, which crate gladhamre_c exports for firmware in C or Rust. A state travels as an
// image of words, which the caller keeps. Every function is total: what it cannot work with it refuses by its number.
#![tactic(auto)]

mod image;
mod update;

ghost use Rattle.drive.specs.Step.{drive, request, AnsweredByChange};
ghost use Rattle.gladhamre.specs.Face.{lending, lent_fits, Faced, BlankFaced};
ghost use Rattle.gladhamre.specs.Image.{decode};
ghost use Rattle.gladhamre.specs.Served.{number_of, length_of, recorded_of};
ghost use Rattle.std.specs.Prelude.{◌≡◌};

use disc::Disc;
use drive::Outcome;
use image::State;
use protocol::{Answer, BLOCK_LENGTH, CDB_LENGTH, LinkRefusal};

// Whether an image's capacity, where it can be read, goes with the medium, and the pending buffer is one block.
fn is_lent(state: &[u32], medium: usize, pending: usize) -> bool
    ensures { result ≡ lent_fits state.now medium pending }
{
    let Some(capacity) = state.first() else {
        return pending == BLOCK_LENGTH;
    };
    Disc::in_range(*capacity)
        & (medium == BLOCK_LENGTH * (*capacity as usize))
        & (pending == BLOCK_LENGTH)
}

// Makes the blank disc of a capacity, as an image. The slice and the number are the C interface's.
pub fn gladhamre_blank(capacity: u32, state: &mut [u32]) -> u32
    ensures { BlankFaced capacity state.old result state.new }
{
    let made = Disc::blank(capacity);
    let Some(words) = state.as_mut_array() else {
        return match made.answer {
            Answer::Accepted => Answer::Link(LinkRefusal::UnsoundState).number(),
            refused => refused.number(),
        };
    };
    image::write(words, made.disc);
    made.answer.number()
}

// Serves one command on a state, whose words stay.
// cdb, data, medium, pending and reply, here and in `answer`: the C function's parameters.
fn serve(
    cdb: &[u8],
    data: &[u8],
    state: State,
    medium: &mut [u8],
    pending: &mut [u8],
    reply: &mut [u8],
) -> Outcome
    ensures { AnsweredByChange (drive (decode state.entry.words.now) medium.old pending.old)
        (request cdb.now «data».now reply.old)
        result medium.new pending.new reply.new }
{
    let disc = state.disc();
    drive::serve(cdb, data, disc, medium, pending, reply)
}

// Answers one command. An error is a refusal on the link, and nothing is written then.
fn answer(
    cdb: &[u8],
    data: &[u8],
    state: &mut [u32],
    medium: &mut [u8],
    pending: &mut [u8],
    reply: &mut [u8],
) -> Result<Outcome, LinkRefusal>
    ensures { Faced (lending state.old medium.old pending.old)
        (request cdb.now «data».now reply.old)
        (number_of result) (length_of result) (recorded_of result)
        state.new medium.new pending.new reply.new }
{
    if cdb.len() != CDB_LENGTH {
        return Err(LinkRefusal::CommandBlockLength);
    }
    if !is_lent(state, medium.len(), pending.len()) {
        return Err(LinkRefusal::MediumSize);
    }
    let Some(words) = state.as_mut_array() else {
        return Err(LinkRefusal::UnsoundState);
    };
    let before = State::of(words)?;
    let outcome = serve(cdb, data, before, medium, pending, reply);
    if let Answer::Link(refusal) = outcome.answer {
        return Err(refusal);
    }
    update::update(words, outcome.change);
    Ok(outcome)
}

// Answers one command. The reply's length and the number of blocks recorded come back through the last two; these and the number are the C
// interface's.
pub fn gladhamre_command(
    cdb: &[u8],
    data: &[u8],
    state: &mut [u32],
    medium: &mut [u8],
    pending: &mut [u8],
    reply: &mut [u8],
    count: &mut u64,
    recorded: &mut u64,
) -> u32
    ensures { Faced (lending state.old medium.old pending.old)
        (request cdb.now «data».now reply.old)
        result count.new recorded.new
        state.new medium.new pending.new reply.new }
{
    *count = 0;
    *recorded = 0;
    match answer(cdb, data, state, medium, pending, reply) {
        Ok(outcome) => {
            *count = outcome.length as u64;
            *recorded = u64::from(outcome.recorded);
            outcome.answer.number()
        }
        Err(refusal) => Answer::Link(refusal).number(),
    }
}
