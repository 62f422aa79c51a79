// A replay: the disc from command to command, and what is printed for what stands in the trace.
ghost use Rattle.std.specs.Prelude.{◌≡◌};
ghost use Rattle.trace.specs.Record.{reason_of};
ghost use Rattle.playback.specs.Line.{LastPrinted};
ghost use Rattle.playback.specs.Replay.{start, last_text, Plays};

use crate::line::Line;
use disc::Disc;
use trace::{Reason, Step};

// The disc, and the number of the record to come, from 1.
#[derive(Clone, Copy)]
pub struct Replay {
    pub disc: Disc,
    pub number: u64,
}

// A record's line, and the replay after it.
#[derive(Clone, Copy)]
pub struct Played {
    pub line: Line,
    pub replay: Replay,
}

impl Replay {
    // Blocks of the disc that a replay starts on.
    const CAPACITY: u32 = 300;

    // The blank disc, before the first record.
    #[tactic(auto, unfolding(disc::specs::Blank::made))]
    pub fn start() -> Replay
        ensures { result ≡ start }
    {
        let disc = Disc::blank(Replay::CAPACITY).disc;
        Replay { disc, number: 1 }
    }

    // The command of a record, with data and a reply buffer of the lengths that it asks for.
    pub fn play(self, cdb: [u8; trace::CDB_LENGTH]) -> Played
        ensures { Plays self cdb result }
    {
        let disc = commands::judge_as_asked(self.disc, &cdb).disc;
        let line = Line::of_record(self.number, cdb[0], disc.sense, disc.tail_next());
        let number = self.number.wrapping_add(1);
        let replay = Replay { disc, number };
        Played { line, replay }
    }

    // The last line, by what stands in the trace where the records end: none at its end.
    #[tactic(auto, using(crate::proofs::Laws::Texts::some_text), unfolding(crate::specs::Replay::last_text))]
    pub fn last_line(self, step: Step) -> Option<Line>
        ensures { LastPrinted (last_text self (reason_of step)) result }
    {
        match step.err()?.reason {
            Reason::BadMark => Some(Line::bad(self.number)),
            Reason::CutShort => Some(Line::cut(self.number)),
            Reason::End => None,
        }
    }
}
