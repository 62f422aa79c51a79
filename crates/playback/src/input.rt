// Replays an input of any length through one fixed buffer: what is left of a record at the end of the bytes held goes to the front, and more is
// read after it.
ghost use Rattle.std.specs.Prelude.{◌≡◌, ◌⊎◌, ◌≤◌, IfOk, IfSome, OnOk, Some, false, length};
ghost use Rattle.std.specs.Io.KnownBytes.{Appends};
ghost use Rattle.playback.specs.Line.{text_of};
ghost use Rattle.playback.specs.Replay.{last_text};
ghost use Rattle.playback.specs.Output.{Reported, BrokenOff, Reached, unreadable, whole};

use crate::line::Line;
use crate::replay::{Played, Replay};
use std::io;
use std::io::{Read, Write};
use trace::{Reason, Stop};

// Bytes of the buffer that an input of any length goes through.
const BUFFER_LENGTH: usize = 4096;

// Where a replay led, and whether its trace was whole and could be read.
#[derive(Clone, Copy)]
pub struct Ending {
    pub replay: Replay,
    pub whole: bool,
}

// A line goes out as a whole.
fn print<W: Write>(to: &mut W, line: Line) -> io::Result<()>
    requires { line.length ≤ length line.bytes }
    ensures { OnOk result (Appends (W.contents to.old) (W.contents to.new) (text_of line)) }
{
    to.write_all(&line.bytes[..line.length])
}

// Prints the last line, among the errors too: `replay` has no exit status to tell that a trace is damaged.
#[tactic(auto, unfolding(crate::specs::Output::whole, crate::specs::Replay::last_text))]
fn finish<W: Write, E: Write>(
    replay: Replay,
    stop: Stop,
    report: &mut W,
    errors: &mut E,
) -> io::Result<Ending>
    ensures ending { IfOk result (λ ending. ending ≡ record { replay = replay; whole = whole (Some stop.reason) }) }
    ensures printed { OnOk result (Appends (W.contents report.old) (W.contents report.new) (last_text replay (Some stop.reason))) }
    ensures told { OnOk result (Appends (E.contents errors.old) (E.contents errors.new) (last_text replay (Some stop.reason))) }
{
    let whole = matches!(stop.reason, Reason::End);
    if let Some(last) = replay.last_line(Err(stop)) {
        print(report, last)?;
        print(errors, last)?;
    }
    Ok(Ending { replay, whole })
}

// Tells among the errors that the input cannot be read.
fn break_off<E: Write>(replay: Replay, errors: &mut E) -> io::Result<Ending>
    ensures ending { IfOk result (λ ending. ending ≡ record { replay = replay; whole = false }) }
    ensures told { OnOk result (Appends (E.contents errors.old) (E.contents errors.new) unreadable) }
{
    errors.write_all(b"the input cannot be read\n")?;
    Ok(Ending {
        replay,
        whole: false,
    })
}

// Replays the trace that a reader gives: a line for each record goes to the report, and why a trace is not whole to the errors too. Where it
// leads is where its records lead, whatever they are; and where the bytes that the reader gives are known, what is printed for them is
// known too. A read that fails is told among the errors, and ends a trace that is not whole. An error is that of a line that could not be
// written: nothing is read or played after it.
pub fn replay_from<R: Read, W: Write, E: Write>(
    input: &mut R,
    report: &mut W,
    errors: &mut E,
) -> io::Result<Ending>
    ensures reached { IfOk result (λ ending. Reached ending.replay) }
    ensures told { IfOk result (λ ending. IfSome (R.remaining input.old) (λ trace.
        Reported trace (W.contents report.old) (W.contents report.new) (E.contents errors.old) (E.contents errors.new) ending
        ⊎ BrokenOff trace (W.contents report.old) (W.contents report.new) (E.contents errors.old) (E.contents errors.new) ending)) }
{
    report.write_all(b"n op key asc ascq next\n")?;
    let mut replay = Replay::start();
    let mut buffer = [0u8; BUFFER_LENGTH];
    // The bytes held that are not played yet.
    let mut at = 0;
    let mut end = 0;
    // A proved loop has to end, and nothing says that an input does: no run uses up these turns.
    for _ in 0..u64::MAX {
        let stop = match trace::read_at(&buffer[at..end], 0) {
            Ok(found) => {
                let Played {
                    line,
                    replay: after,
                } = replay.play(found.cdb);
                print(report, line)?;
                replay = after;
                at += found.next;
                continue;
            }
            Err(stop) => stop,
        };
        if let Reason::BadMark = stop.reason {
            return finish(replay, stop, report, errors);
        }
        buffer.copy_within(at..end, 0);
        end -= at;
        at = 0;
        match input.read(&mut buffer[end..]) {
            Ok(0) => return finish(replay, stop, report, errors),
            Ok(count) => end += count,
            Err(_) => return break_off(replay, errors),
        }
    }
    Ok(Ending {
        replay,
        whole: false,
    })
}
