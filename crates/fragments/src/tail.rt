// The tail that a command begins, and what closing makes of one: records put into the list.
ghost use Rattle.std.specs.Prelude.{◌≡◌};
ghost use Rattle.fragments.specs.Address.{block};
ghost use Rattle.fragments.specs.Tail.{tail_entry, tail_after, tail_closed};

use crate::address::{Block, WideBlock};
use crate::fragment::{Fragment, Kind};
use crate::list::LIMIT;
use crate::numbered::Entry;

impl Entry {
    // The tail of a session from a block to the capacity, under a number, if a block is left for it.
    pub fn tail(capacity: u32, number: usize, session: u8, start: WideBlock) -> Entry
        ensures { result ≡ tail_entry capacity number session (block start.0) }
    {
        if start.0 >= u64::from(capacity) {
            return Entry::none();
        }
        let first = start.0 as u32;
        let fragment = Fragment {
            session,
            start: Block(first),
            length: capacity - first,
            recorded: 0,
            zeroed: 0,
            kind: Kind::Appended,
        };
        Entry::new(number, fragment)
    }

    // The tail after a fragment with a number, the last one, if a block is left for it and a record.
    pub fn tail_after(capacity: u32, number: usize, f: Fragment) -> Entry
        ensures { result ≡ tail_after capacity number f }
    {
        if number >= LIMIT {
            return Entry::none();
        }
        Entry::tail(capacity, number + 1, f.session, f.next_start())
    }

    // What closing makes of the last record, with nothing pending: a blank tail is dropped, a written one ends with its recorded blocks.
    pub fn tail_closed(last: Entry) -> Entry
        ensures { result ≡ tail_closed last }
    {
        let f = last.fragment;
        if !f.is_tail() {
            return Entry::none();
        }
        if f.recorded == 0 {
            return Entry::new(last.number, Fragment::unused());
        }
        Entry::new(last.number, f.shortened())
    }
}
