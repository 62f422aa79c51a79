// Walks along the records of a disc: how many are in use, the last one, one by its number, and which of them a session or a test names.
ghost use Rattle.std.specs.Prelude.{◌≡◌, ◌-◌, length};
ghost use Rattle.fragments.specs.Fragment.{is_incomplete_reserved};
ghost use Rattle.fragments.specs.List.{listed, record_numbered, last_of, pending_of, first_of_session, highest_readable, some};

use crate::address::Lba;
use crate::fragment::Fragment;
use crate::numbered::Entry;

// How many records a disc has.
pub const LIMIT: usize = 160;

// Where a fragment's recorded sectors end, and where its readable ones do.
#[derive(Clone, Copy, PartialEq, Eq, Default, Debug)]
pub struct Reach {
    // The address after the last recorded sector.
    pub recorded: Lba,
    // The address after the last readable one.
    pub readable: Lba,
}

// The records in use: those before the first one without a length.
pub fn in_use(fragments: &[Fragment; LIMIT]) -> &[Fragment]
    ensures { result.now ≡ listed fragments.now }
{
    let used = fragments.iter().take_while(|f| f.length != 0).count();
    &fragments[..used]
}

// How many records are in use, which is the last one's number.
pub fn used(fragments: [Fragment; LIMIT]) -> usize
    ensures { result ≡ length (listed fragments) }
{
    in_use(&fragments).len()
}

// The record with a number; of number 0, the first, and past the end an unused one.
// No Option: `record_numbered`, and the theorem `asked_of_a_list` of examples for a disc, hold the answer for every number.
pub fn record_numbered(fragments: [Fragment; LIMIT], number: usize) -> Fragment
    ensures { result ≡ record_numbered fragments number }
{
    let record = fragments.get(number.saturating_sub(1));
    record.copied().unwrap_or_default()
}

// The last record with its number.
pub fn last_record(fragments: [Fragment; LIMIT]) -> Entry
    ensures { result ≡ last_of fragments }
{
    let number = in_use(&fragments).len();
    Entry::new(number, fragments[number.saturating_sub(1)])
}

// The pending sectors of the fragment with a number, of all those pending and the number of the fragment that has them.
// The pair stays two numbers, here and in `highest_readable`: so the disc's state in document 01 and its C image have it.
pub fn pending_of(pending: u8, owner: u8, number: usize) -> u8
    ensures { result ≡ pending_of pending owner number }
{
    if usize::from(owner) == number {
        pending
    } else {
        0
    }
}

// The number of a session's first record; one more than the last record's where it has none. No Option: `first_of_session` holds that number.
// One walk, here and in the next function, which ends at the hit: `in_use` would go along all of them first.
pub fn first_of_session(fragments: [Fragment; LIMIT], session: u8) -> usize
    ensures { result ≡ first_of_session session 1 (listed fragments) }
{
    let before = fragments
        .iter()
        .take_while(|f| f.length != 0)
        .take_while(|f| f.session != session);
    before.count() + 1
}

// Some reserved fragment is incomplete.
pub fn has_incomplete_reserved(fragments: [Fragment; LIMIT]) -> bool
    ensures { result ≡ some is_incomplete_reserved (listed fragments) }
{
    fragments
        .iter()
        .take_while(|f| f.length != 0)
        .any(|f| f.is_incomplete_reserved())
}

// The highest readable address, or 0, with so many sectors pending in the fragment with the number `owner`.
// No Option: READ CAPACITY replies with the number as it is, and `highest_readable` holds it.
pub fn highest_readable(fragments: [Fragment; LIMIT], pending: u8, owner: u8) -> Lba
    ensures { result ≡ highest_readable pending owner 1 (listed fragments) }
{
    let mut highest = Lba(0);
    for (index, f) in in_use(&fragments).iter().enumerate() {
        let readable = f.last_readable(pending_of(pending, owner, index + 1));
        highest = highest.max(readable);
    }
    highest
}
