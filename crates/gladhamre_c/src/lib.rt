// The C face's exports: functions that firmware in C or Rust links, each with the promise of the function of crate gladhamre that it calls.
// include/gladhamre.h declares them. Every one is total. A static library, and so no crate that others stand on.
#![tactic(auto)]

ghost use Rattle.drive.specs.Step.{request};
ghost use Rattle.gladhamre.specs.Face.{lending, Faced, BlankFaced};

// Makes the blank disc of a capacity, as an image.
#[unsafe(no_mangle)]
pub extern "C" fn gladhamre_blank(capacity: u32, state: &mut [u32]) -> u32
    ensures { BlankFaced capacity state.old result state.new }
{
    gladhamre::gladhamre_blank(capacity, state)
}

// Answers one command. The reply's length and the number of blocks recorded come back through the last two.
#[unsafe(no_mangle)]
pub extern "C" fn gladhamre_command(
    cdb: &[u8],
    data: &[u8],
    state: &mut [u32],
    medium: &mut [u8],
    pending: &mut [u8],
    reply: &mut [u8],
    count: &mut u64,
    recorded: &mut u64,
) -> u32
    ensures { Faced (lending state.old medium.old pending.old)
        (request cdb.now «data».now reply.old)
        result count.new recorded.new
        state.new medium.new pending.new reply.new }
{
    gladhamre::gladhamre_command(cdb, data, state, medium, pending, reply, count, recorded)
}
