// Words that are a state's, and the state that they stand for.
ghost use Rattle.std.specs.Prelude.{◌≡◌, ◌≤◌, drop, Some, None, MatchResult};
ghost use Rattle.gladhamre.specs.Types.{UnsoundState};
ghost use Rattle.std.proofs.Props.{props};
ghost use Rattle.gladhamre.specs.Image.{list_of, decode};
ghost use Rattle.gladhamre.specs.Used.{used_in, all_zero, words_of, Taken};
ghost use Rattle.fragments.specs.List.{limit};

use super::head::{self, HEAD};
use super::record::{self, RECORD};
use super::{Image, head_of, records_of};
use disc::Disc;
use fragments::Fragment;
use protocol::{LinkRefusal, Sense};

// How many records stand before the first one that is not in use, or whose words are no record's.
fn used_records(words: &Image) -> usize
    ensures first { result ≡ used_in words.now }
    ensures most { result ≤ limit }
{
    let first_unused = records_of(words)
        .iter()
        .position(|record| !record::is_used(record));
    first_unused.unwrap_or(Disc::LIMIT)
}

// Whether every word is zero. Without a branch: a short list leaves many words to test.
fn is_zero(words: &[u32]) -> bool
    ensures { result ≡ all_zero words.now }
{
    words.iter().fold(0, |all, word| all | *word) == 0
}

// How many records are in use, if the words are a state's with zeros alone after those. No record after them is decoded: its words are zeros,
// or the state is not sound.
fn used(words: &Image) -> Option<usize>
    ensures { result ≡ words_of words.now }
{
    let used = used_records(words);
    let rest = HEAD + RECORD * used;
    if head::fits(head_of(words)) & is_zero(&words[rest..]) {
        return Some(used);
    }
    None
}

// Words of which so many records are in use, and zeros alone come after those.
#[derive(Clone, Copy)]
pub(crate) struct State<'a> {
    words: &'a Image,
    used: usize,
    ghost taken: { Taken words.now used } by { Prim.hlevel props },
}

impl<'a> State<'a> {
    // The state of the words, where they are one's.
    pub(crate) fn of(words: &'a Image) -> Result<State<'a>, LinkRefusal>
        ensures { MatchResult result
            (λ s. (s.words.now ≡ words.now) × (words_of words.now ≡ Some s.used))
            (λ e. (e ≡ UnsoundState) × (words_of words.now ≡ None)) }
    {
        let used = used(words).ok_or(LinkRefusal::UnsoundState)?;
        Ok(State { words, used })
    }

    // The records, of which the first ones are in use.
    fn fragments(self) -> [Fragment; Disc::LIMIT]
        ensures { result ≡ list_of limit (drop 7 self.entry.words.now) }
    {
        let unused = Fragment::unused();
        let mut fragments = [unused; Disc::LIMIT];
        let in_use = &records_of(self.words)[..self.used];
        for (i, record) in in_use.iter().enumerate() {
            fragments[i] = record::read(record);
        }
        fragments
    }

    // The state as a disc.
    pub(crate) fn disc(self) -> Disc
        ensures { result ≡ decode self.entry.words.now }
    {
        let [capacity, finalized, key, asc, ascq, pending, owner] = *head_of(self.words);
        let sense = Sense {
            key: key as u8,
            asc: asc as u8,
            ascq: ascq as u8,
        };
        let fragments = self.fragments();
        Disc {
            capacity,
            finalized: finalized == 1,
            sense,
            pending: pending as u8,
            owner: owner as u8,
            fragments,
        }
    }
}
