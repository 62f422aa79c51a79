// The medium's share of what a READ hands out, for a caller that has no decision: a part of the lent medium, whose bytes are not looked at.
ghost use Rattle.outcomes.specs.Run.{RunOf};

use disc::Disc;
use protocol::Command;

// The recorded sectors of an accepted READ (28h, A8h) of length 1 up, in place; an empty part where all of them are pending, and for every other
// input. It sees command block, state and medium: a READ that is refused for the lengths of data, reply or pending buffer has its run here
// all the same.
pub fn recorded_run<'a>(disc: Disc, cdb: &[u8], medium: &'a [u8]) -> &'a [u8]
    ensures { RunOf disc cdb.now medium.now result.now }
{
    if medium.len() != protocol::BLOCK_LENGTH * disc.capacity as usize {
        return &medium[0..0];
    }
    let command = Command::decode(cdb);
    let decision = commands::decide(disc, cdb, command.data_length(), command.reply_room());
    decision.plan.transfer.run(medium)
}
