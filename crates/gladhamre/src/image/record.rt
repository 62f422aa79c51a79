// A record of an image: session, start, length, recorded and zeroed, and the kind.
ghost use Rattle.std.specs.Prelude.{◌≡◌, true};
ghost use Rattle.gladhamre.specs.Image.{kind_of, record_of, record_words, record_fits};
ghost use Rattle.gladhamre.specs.Used.{record_used};

use fragments::{Block, Fragment, Kind};

// Words of a record.
pub(crate) const RECORD: usize = 6;

// Whether the words are those of a record in use.
pub(crate) fn is_used(words: &[u32; RECORD]) -> bool
    ensures { result ≡ record_used words.now }
{
    let [session, _, length, _, _, kind] = *words;
    (session < 256) & (kind < 2) & (length != 0)
}

// 0 for a reserved fragment, 1 for an appended one. An impl of `From` would have to stand beside `Kind`, which knows nothing of an image.
fn kind_of(word: u32) -> Kind
    ensures { result ≡ kind_of word }
{
    match word {
        1 => Kind::Appended,
        _ => Kind::Reserved,
    }
}

// The record that the words stand for.
pub(crate) fn read(words: &[u32; RECORD]) -> Fragment
    requires { record_fits words.now ≡ true }
    ensures { result ≡ record_of words.now }
{
    let [session, start, length, recorded, zeroed, kind] = *words;
    Fragment {
        session: session as u8,
        start: Block(start),
        length,
        recorded,
        zeroed,
        kind: kind_of(kind),
    }
}

// A record as its words.
pub(crate) fn words(f: Fragment) -> [u32; RECORD]
    ensures { result ≡ record_words f }
{
    [
        u32::from(f.session),
        f.start.0,
        f.length,
        f.recorded,
        f.zeroed,
        f.kind as u32,
    ]
}
