// What can be asked of the list, whatever it is: how many fragments there are, one by number, what is pending or blank.
ghost use Rattle.std.specs.Prelude.{◌≡◌};
ghost use Rattle.fragments.specs.List.{last_of, first_of_session};
ghost use Rattle.disc.specs.Records.{used, is_listed, numbered, pending_in, is_blank, next_writable, tail_next, last_readable, records, is_blank_tail, is_only_tail};

use crate::state::Disc;
use fragments::{Entry, Fragment, Lba};

impl Disc {
    // How many records are in use, which is the last one's number.
    pub(crate) fn used(self) -> usize
        ensures { result ≡ used self }
    {
        fragments::in_use(&self.fragments).len()
    }

    // The last record with its number.
    pub fn last(self) -> Entry
        ensures { result ≡ last_of self.fragments }
    {
        fragments::last_record(self.fragments)
    }

    // The tail's next writable address; none where there is no tail.
    pub fn tail_next(self) -> Option<Lba>
        ensures { result ≡ tail_next self }
    {
        let last = self.last();
        if last.fragment.is_tail() {
            return Some(self.next_writable(last.number, last.fragment));
        }
        None
    }

    // The record with a number; of number 0, the first, and past the list an unused one.
    pub fn numbered(self, number: usize) -> Fragment
        ensures { result ≡ numbered self number }
    {
        fragments::record_numbered(self.fragments, number)
    }

    // The number is that of a record in use.
    pub fn is_listed(self, number: usize) -> bool
        ensures { result ≡ is_listed self number }
    {
        (1..=self.used()).contains(&number)
    }

    // The pending sectors of the fragment with a number.
    pub fn pending_in(self, number: usize) -> u8
        ensures { result ≡ pending_in self number }
    {
        fragments::pending_of(self.pending, self.owner, number)
    }

    // The fragment with a number has no block recorded and no sector pending. Number and record stay two, here and below: docs/PROMISES.md has
    // the rows of `is_blank` and `next_writable` for any two of them, and `asked_of_a_list` of examples asks so.
    pub fn is_blank(self, number: usize, f: Fragment) -> bool
        ensures { result ≡ is_blank self number f }
    {
        (f.recorded == 0) & (self.pending_in(number) == 0)
    }

    // The next writable address of the fragment with a number.
    pub fn next_writable(self, number: usize, f: Fragment) -> Lba
        ensures { result ≡ next_writable self number f }
    {
        f.next_writable(self.pending_in(number))
    }

    // The highest readable address, or 0.
    pub fn last_readable(self) -> Lba
        ensures { result ≡ last_readable self }
    {
        fragments::highest_readable(self.fragments, self.pending, self.owner)
    }

    // The number of a session's first record; one more than the last record's where it has none.
    pub fn first_of_session(self, session: u8) -> usize
        ensures { result ≡ first_of_session session 1 (records self) }
    {
        fragments::first_of_session(self.fragments, session)
    }

    // The last record, given with its number, is a tail with no block recorded and no sector pending.
    pub fn is_blank_tail(self, last: Entry) -> bool
        ensures { result ≡ is_blank_tail self last }
    {
        last.fragment.is_tail() & self.is_blank(last.number, last.fragment)
    }

    // The same, and it is its session's one record.
    pub fn is_only_tail(self, last: Entry) -> bool
        ensures { result ≡ is_only_tail self last }
    {
        self.is_blank_tail(last) & (self.first_of_session(last.fragment.session) == last.number)
    }
}
