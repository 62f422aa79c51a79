// The fragment that an address lies in, found by halving.
ghost use Rattle.std.specs.Prelude.{◌≡◌};
ghost use Rattle.search.specs.Search.{step, sought, halving};

use fragments::{Entry, Fragment, LIMIT, Lba};

// How many records a search looks at, at the most. Those of a disc are fewer than 2^8: halved so often, none is left.
const LOOKS: usize = 8;

// What a search comes to: the fragment that the address lies in, with its number, if there is one, and how many records it has looked at.
#[derive(Clone, Copy)]
pub struct Sought {
    pub holder: Option<Entry>,
    pub looks: usize,
}

// What one look at one record tells of the fragment that an address lies in.
// Not an Ordering: `sides` of examples/specs/Searches.antt names what a look tells.
#[derive(Clone, Copy)]
pub enum Side {
    // It can only stand on the left, among the records before this one.
    Left,
    // It can only stand on the right, among those after it.
    Right,
    // It is this one.
    Here,
}

// One step: a look at one record, at its start and at its end. An unused record stands after all those in use.
fn step(address: Lba, f: Fragment) -> Side
    ensures { result ≡ step address f }
{
    if (f.length == 0) | (address < f.start.first_sector()) {
        Side::Left
    } else if address < f.end_address() {
        Side::Here
    } else {
        Side::Right
    }
}

// The search: the records from the index `low` to before `high` are in question, and each step is given the one in their middle.
// By hand, as `EightLooks` (commands/specs/Holder.antt) and the type `Search` count the looks, which std's binary search does not.
pub fn halving(fragments: [Fragment; LIMIT], address: Lba) -> Sought
    ensures { result ≡ sought fragments (halving address) }
{
    let mut low: usize = 0;
    let mut high: usize = LIMIT;
    let mut looks: usize = 0;
    // A count and no `for` over it: that is unrolled, and then a call takes more stack than GLADHAMRE_STACK_LENGTH of include/gladhamre.h says;
    // host/stack measures it.
    while looks < LOOKS && low < high {
        let index = low + (high - low) / 2;
        let f = fragments[index];
        looks += 1;
        match step(address, f) {
            Side::Left => high = index,
            Side::Right => low = index + 1,
            Side::Here => {
                return Sought {
                    holder: Some(Entry::new(index + 1, f)),
                    looks,
                };
            }
        }
    }
    Sought {
        holder: None,
        looks,
    }
}
