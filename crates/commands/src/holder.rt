// The fragment that an address lies in: READ TRACK INFORMATION asks for its number, READ how far it can be read, WRITE whether it takes
// the address. A command's list is sound, so the search by halving finds it.
ghost use Rattle.std.specs.Prelude.{◌≡◌};
ghost use Rattle.search.specs.Search.{held};
ghost use Rattle.disc.specs.Records.{at_address, reach_around, writable_at};

use crate::ready::ReadyDisc;
use fragments::{Entry, Lba, Reach};

impl ReadyDisc {
    // With its number, if there is one.
    fn holder_at(&self, address: Lba) -> Option<Entry>
        ensures { result ≡ held self.now.disc.fragments (at_address self.now.disc address) }
    {
        search::halving(self.disc.fragments, address).holder
    }

    // Its number.
    pub(crate) fn at_address(&self, address: Lba) -> Option<usize>
        ensures { result ≡ at_address self.now.disc address }
    {
        self.holder_at(address).map(|holder| holder.number)
    }

    // Where its recorded sectors end, and where its readable ones do; both 0 where there is none, as `no_reach` holds, so no Option.
    pub(crate) fn reach_around(&self, address: Lba) -> Reach
        ensures { result ≡ reach_around self.now.disc address }
    {
        match self.holder_at(address) {
            Some(holder) => Reach {
                recorded: holder.fragment.recorded_end(),
                readable: self.disc.next_writable(holder.number, holder.fragment),
            },
            None => Reach {
                recorded: Lba(0),
                readable: Lba(0),
            },
        }
    }

    // The incomplete fragment whose next writable address it is, with its number: no other than the one that the address lies in.
    pub(crate) fn writable_at(&self, address: Lba) -> Option<Entry>
        ensures { result ≡ held self.now.disc.fragments (writable_at self.now.disc address) }
    {
        let holder = self.holder_at(address)?;
        if holder
            .fragment
            .takes(address, self.disc.pending_in(holder.number))
        {
            return Some(holder);
        }
        None
    }
}
