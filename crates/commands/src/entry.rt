// What the drive decides about a command, from the disc, the command block and the lengths of data and reply buffer alone.
ghost use Rattle.std.specs.Prelude.{◌≡◌, IfOk, IfErr};
ghost use Rattle.disc.specs.Apply.{decided};
ghost use Rattle.disc.specs.Verdict.{refuse_link};
ghost use Rattle.commands.specs.Judge.{perform, judge, Judged, JudgedAsAsked};

use crate::ready::ReadyDisc;
use decisions::Decision;
use disc::{Disc, Verdict};
use protocol::{Command, LinkRefusal};

// What is to be performed on which disc: the link refusals that need no buffer, in order.
#[tactic(auto, unfolding(crate::specs::Judge::judge, crate::specs::Judge::judge_command))]
fn admitted(
    disc: Disc,
    cdb: &[u8],
    data_length: usize,
    reply_length: usize,
) -> Result<(ReadyDisc, Command), LinkRefusal>
    ensures same_disc { IfOk result (λ admitted. admitted.0.disc ≡ disc) }
    ensures ok { IfOk result (λ admitted. judge disc cdb.now data_length reply_length ≡ perform disc admitted.1) }
    ensures err { IfErr result (λ refusal. judge disc cdb.now data_length reply_length ≡ refuse_link disc refusal) }
{
    if cdb.len() != protocol::CDB_LENGTH {
        return Err(LinkRefusal::CommandBlockLength);
    }
    let ready = ReadyDisc::try_from(disc)?;
    let command = Command::decode(cdb);
    if !command.lengths_fit(data_length, reply_length) {
        return Err(LinkRefusal::TransferLength);
    }
    Ok((ready, command))
}

// The decision about a command block, with data and a reply buffer of these lengths: the link refusals that need no buffer, in order,
// then the drive. Here alone a command's refusal becomes a decision; the functions of `reporting` give their refusals as decisions themselves.
// The two lengths stay parameters, here and below: `decide` and `judge` of docs/PROMISES.md are public and take any two.
pub fn decide(disc: Disc, cdb: &[u8], data_length: usize, reply_length: usize) -> Decision
    ensures { Judged disc cdb.now data_length reply_length (decided disc result) }
{
    match admitted(disc, cdb, data_length, reply_length) {
        Ok((ready, command)) => ready.perform(command).unwrap_or_else(Decision::refused),
        Err(refusal) => Decision::refused_link(disc.sense, refusal),
    }
}

// The decision applied.
pub fn judge(disc: Disc, cdb: &[u8], data_length: usize, reply_length: usize) -> Verdict
    ensures { Judged disc cdb.now data_length reply_length result }
{
    disc.decided(decide(disc, cdb, data_length, reply_length))
}

// The same with data and a reply buffer of the lengths that the command block asks for: no L4.
pub fn judge_as_asked(disc: Disc, cdb: &[u8]) -> Verdict
    ensures { JudgedAsAsked disc cdb.now result }
{
    let command = Command::decode(cdb);
    judge(disc, cdb, command.data_length(), command.reply_room())
}
