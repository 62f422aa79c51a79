// The closed sessions of a fragment list, of which the records in use are given.
ghost use Rattle.std.specs.Prelude.{◌≡◌};
ghost use Rattle.std.specs.Iterator.{YieldsFirst, item_count};
ghost use Rattle.contents.specs.Sessions.{is_closed, closed_of, firsts, last_fragment, sessions_left};

use fragments::Fragment;

// Which sessions are closed: those before the last one, and on a finalized disc all of them.
#[derive(Clone, Copy)]
pub(crate) struct Closing {
    pub finalized: bool,
    // The number of the last session.
    pub last: u8,
}

// The closed sessions that are left of a list, in list order, each by its first fragment.
#[derive(Drop)]
pub(crate) struct Sessions<'a> {
    closing: Closing,
    records: &'a [Fragment],
    // The session of the fragment before them.
    before: u8,
}

impl Closing {
    // Whether a fragment's session is closed.
    fn is_closed(self, f: Fragment) -> bool
        ensures { result ≡ is_closed self.finalized self.last f }
    {
        self.finalized | (f.session < self.last)
    }

    // The last fragment of the closed sessions; an unused record where there is none.
    pub(crate) fn last_fragment(self, records: &[Fragment]) -> Fragment
        ensures { result ≡ last_fragment (closed_of self.finalized self.last records.now) }
    {
        let closed = records.iter().copied().filter(|f| self.is_closed(*f));
        closed.last().unwrap_or_default()
    }

    // The closed sessions; no session has the number 0.
    pub(crate) fn sessions(self, records: &[Fragment]) -> Sessions<'_>
        ensures { sessions_left result ≡ closed_of self.finalized self.last (firsts 0 records.now) }
    {
        Sessions {
            closing: self,
            records,
            before: 0,
        }
    }
}

impl Iterator for Sessions<'_> {
    type Item = Fragment;

    ghost next_gives = { YieldsFirst sessions_left };

    ghost remaining = { item_count sessions_left };

    // By hand: each turn takes the front record off what is left, and no index is counted; a `for` would have no rest to keep.
    fn next(&mut self) -> Option<Fragment> {
        while let Some((f, others)) = self.records.split_first() {
            let begins = f.session != self.before;
            self.before = f.session;
            self.records = others;
            if begins & self.closing.is_closed(*f) {
                return Some(*f);
            }
        }
        None
    }
}
