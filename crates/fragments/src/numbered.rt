// A record of the list with its number: the last one, one that a search finds, one that a command puts.
ghost use Rattle.std.specs.Prelude.{◌≡◌};
ghost use Rattle.fragments.specs.Entry.{entry, no_entry, put, over, over_last};

use crate::fragment::Fragment;
use crate::list::LIMIT;

// A record and its number, from 1. Put into the list it stands there under its number; under 0 none is put. An Option beside it would say that a
// second time: `puts` and `changes` of examples put an entry under 0, so what becomes of that number is promised anyway.
#[derive(Clone, Copy)]
pub struct Entry {
    pub number: usize,
    pub fragment: Fragment,
}

impl Entry {
    pub fn new(number: usize, fragment: Fragment) -> Entry
        ensures { result ≡ entry number fragment }
    {
        Entry { number, fragment }
    }

    // No record.
    pub fn none() -> Entry
        ensures { result ≡ no_entry }
    {
        Entry::new(0, Fragment::unused())
    }

    // The records with this one put under its number; under 0 and past the list none is put.
    pub fn put(self, mut records: [Fragment; LIMIT]) -> [Fragment; LIMIT]
        ensures { result ≡ put self records }
    {
        if (1..=LIMIT).contains(&self.number) {
            records[self.number - 1] = self.fragment;
        }
        records
    }

    // What stands under a number once the record is put, with another one there before.
    pub fn over(self, number: usize, before: Fragment) -> Fragment
        ensures { result ≡ over self number before }
    {
        if self.number == number {
            return self.fragment;
        }
        before
    }

    // The last record once this one is put, with its number and what was there before.
    pub fn over_last(self, last: Entry) -> Entry
        ensures { result ≡ over_last self last }
    {
        let number = last.number;
        let fragment = self.over(number, last.fragment);
        Entry::new(number, fragment)
    }
}
