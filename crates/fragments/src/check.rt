// The check of the records against the rules of a sound list, in one pass: along those in use, then along the rest.
// It is total: the fields may hold any numbers, and no sum wraps.
ghost use Rattle.std.specs.Prelude.{◌≡◌, ◌&&◌};
ghost use Rattle.fragments.specs.Fragment.{is_zero};
ghost use Rattle.fragments.specs.List.{every};
ghost use Rattle.fragments.specs.Check.{within, begins_list, continues, open_after, ends_list, list_sound};

use crate::address::{self, Block, WideBlock};
use crate::fragment::{Fragment, Kind};
use crate::list::LIMIT;

impl Fragment {
    // The fields of both joined bit by bit: all zero where those of both are.
    fn joined(self, other: Fragment) -> Fragment
        ensures { is_zero result ≡ (is_zero self && is_zero other) }
    {
        // No `max` of the kinds: along a list each turn waits for the one before then, and a command on a short list takes a sixth longer (host/bench).
        let kind = if self.kind.is_reserved() {
            other.kind
        } else {
            Kind::Appended
        };
        Fragment {
            start: Block(self.start.0 | other.start.0),
            length: self.length | other.length,
            recorded: self.recorded | other.recorded,
            zeroed: self.zeroed | other.zeroed,
            session: self.session | other.session,
            kind,
        }
    }

    // The fragment ends within the capacity, and its counts fit.
    fn is_within(self, capacity: u32) -> bool
        ensures { result ≡ within capacity self }
    {
        (self.end().0 <= u64::from(capacity))
            & (self.recorded <= self.length)
            & (u64::from(self.zeroed) <= address::sectors_in(self.recorded))
    }

    // The record may be the first one.
    fn begins_list(self) -> bool
        ensures { result ≡ begins_list self }
    {
        (self.length != 0) & (self.session == 1) & (self.start == Block(0))
    }

    // The record may stand after `before`; `incomplete` says that a fragment of that one's session is incomplete.
    fn continues(self, before: Fragment, incomplete: bool) -> bool
        ensures { result ≡ continues incomplete before self }
    {
        let start = WideBlock::from(self.start);
        let same = (self.session == before.session) & (start == before.next_start());
        let next = (u32::from(self.session) == u32::from(before.session) + 1)
            & (start == before.next_session_start());
        !before.is_tail() & (same | !incomplete & next)
    }

    // Whether a fragment of the session is incomplete, this record after `before` counted.
    fn leaves_open(self, before: Fragment, incomplete: bool) -> bool
        ensures { result ≡ open_after incomplete before self }
    {
        (self.session == before.session) & incomplete | !self.is_complete()
    }

    // The record may be the last one; `full` says that no record is free.
    fn ends_list(self, capacity: u32, finalized: bool, full: bool, incomplete: bool) -> bool
        ensures { result ≡ ends_list capacity finalized full incomplete self }
    {
        if finalized {
            return !incomplete;
        }
        if self.is_tail() {
            return self.end().0 == u64::from(capacity);
        }
        full | (u64::from(capacity) <= self.end().0 + 1)
    }
}

// Every field of every record is zero. The bits are joined, so that no record makes a branch.
fn are_zero(records: &[Fragment]) -> bool
    ensures { result ≡ every is_zero records.now }
{
    let mut joined = Fragment::unused();
    for f in records {
        joined = joined.joined(*f);
    }
    joined == Fragment::unused()
}

// The rules that speak of the records alone, for a disc of a capacity that is finalized or not, in one pass: a record is tried as one in use or,
// from the first one without a length on, as one of the rest. The one before is read where it stands: a copy carried along takes longer.
pub fn list_is_sound(capacity: u32, finalized: bool, fragments: [Fragment; LIMIT]) -> bool
    ensures { result ≡ list_sound capacity finalized fragments }
{
    let [first, others @ ..] = &fragments[..] else {
        return false;
    };
    if !(first.begins_list() & first.is_within(capacity)) {
        return false;
    }
    let mut incomplete = !first.is_complete();
    for (index, f) in others.iter().enumerate() {
        let before = &fragments[index];
        if f.length == 0 {
            return before.ends_list(capacity, finalized, false, incomplete)
                & are_zero(&others[index..]);
        }
        if !(f.is_within(capacity) & f.continues(*before, incomplete)) {
            return false;
        }
        incomplete = f.leaves_open(*before, incomplete);
    }
    fragments[LIMIT - 1].ends_list(capacity, finalized, true, incomplete)
}
