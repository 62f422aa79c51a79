// An image brought up to date: only what a command changes is written.
ghost use Rattle.std.specs.Prelude.{◌≡◌};
ghost use Rattle.gladhamre.specs.Image.{decode, encode, StateWords};
ghost use Rattle.gladhamre.specs.Update.{Turned};
ghost use Rattle.disc.specs.Apply.{with_entry, with_pending, settled, affected, changed};

use crate::image::head::{ASC, ASCQ, FINALIZED, KEY, OWNER, PENDING};
use crate::image::{Image, put_record};
use decisions::{Change, Effect};
use disc::Disc;
use fragments::Entry;

// A record put under its number; under 0, or a number past the list, none is put: both tests as `Entry::put` of `fragments` has them.
fn put(words: &mut Image, entry: Entry)
    ensures { Turned words.old words.new (λ d. with_entry d entry) }
{
    let number = entry.number;
    if number == 0 {
        return;
    }
    if number > Disc::LIMIT {
        return;
    }
    put_record(words, number - 1, entry.fragment);
}

// How many sectors are pending, and in which fragment.
fn put_pending(words: &mut Image, pending: u8, owner: u8)
    ensures { Turned words.old words.new (λ d. with_pending d pending owner) }
{
    words[PENDING] = u32::from(pending);
    words[OWNER] = u32::from(owner);
}

// The record that a flush leaves; nothing is pending then.
fn settle(words: &mut Image, flushed: Entry)
    ensures { Turned words.old words.new (λ d. settled d flushed) }
{
    put(words, flushed);
    put_pending(words, 0, 0);
}

// Two records, one after the other.
fn put_both(words: &mut Image, first: Entry, second: Entry)
    ensures { Turned words.old words.new (λ d. with_entry (with_entry d first) second) }
{
    put(words, first);
    put(words, second);
}

// What becomes of the list, of the pending sectors and of the flag.
// Its twin is `affected` of `disc`: a trait over both would need a type for words that are lent, and a relation in place of each equation.
fn put_effect(words: &mut Image, effect: Effect)
    ensures { Turned words.old words.new (λ d. affected d effect) }
{
    match effect {
        Effect::Keep => {}
        Effect::Settle { flushed } => settle(words, flushed),
        Effect::Reserve { reserved, tail } => put_both(words, reserved, tail),
        Effect::Close {
            flushed,
            closed,
            tail,
            finalized,
        } => {
            settle(words, flushed);
            put_both(words, closed, tail);
            words[FINALIZED] = u32::from(finalized);
        }
        Effect::Grow {
            flushed,
            grown,
            pending,
            owner,
        } => {
            put_both(words, flushed, grown);
            put_pending(words, pending, owner);
        }
    }
}

// The image of the state before a command becomes that of the state after it.
pub(crate) fn update(words: &mut Image, change: Change)
    requires { StateWords words.old }
    ensures { words.new ≡ encode (changed (decode words.old) change) }
{
    put_effect(words, change.effect);
    let sense = change.sense;
    words[KEY] = u32::from(sense.key);
    words[ASC] = u32::from(sense.asc);
    words[ASCQ] = u32::from(sense.ascq);
}
