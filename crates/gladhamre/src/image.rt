// The state image: a disc state as words of 32 bits, a head and then the records.
pub(crate) mod head;
mod record;
mod state;

ghost use Rattle.std.specs.Prelude.{◌≡◌, ◌+◌, ◌*◌, ◌<◌, length, take};
ghost use Rattle.gladhamre.specs.Image.{record_words, list_words, encode, records_of};
ghost use Rattle.fragments.specs.List.{limit};
ghost use Rattle.drive.specs.Bytes.{splice};

use disc::Disc;
use fragments::Fragment;
use head::HEAD;
use record::RECORD;
pub(crate) use state::State;

// Words of an image.
const LENGTH: usize = HEAD + RECORD * Disc::LIMIT;

pub(crate) type Image = [u32; LENGTH];

// The head's words, and those of each record.
fn head_of(words: &Image) -> &[u32; HEAD]
    ensures { result.now ≡ take 7 words.now }
{
    words.first_chunk().unwrap()
}

fn records_of(words: &Image) -> &[[u32; RECORD]]
    ensures { (result.now ≡ records_of words.now) × (length result.now ≡ limit) }
{
    let (records, _) = words[HEAD..].as_chunks();
    records
}

// A record in its place, word by word: of chunks that are lent to be written the library does not say what they leave in the whole, and a copy
// of the six at once goes through memory, which makes a new image five times as slow.
#[tactic(auto, using(std::proofs::lemmas::List::Edits::paste_more), unfolding(drive::specs::Bytes::splice))]
pub(crate) fn put_record(words: &mut Image, index: usize, fragment: Fragment)
    requires { index < limit }
    ensures { words.new ≡ splice words.old (7 + 6 * index) (record_words fragment) }
{
    let from = HEAD + RECORD * index;
    for (i, word) in record::words(fragment).iter().enumerate() {
        words[from + i] = *word;
    }
}

// The records, after the head.
fn write_list(words: &mut Image, fragments: &[Fragment; Disc::LIMIT])
    ensures { words.new ≡ splice words.old 7 (list_words fragments.now) }
{
    for (i, fragment) in fragments.iter().enumerate() {
        put_record(words, i, *fragment);
    }
}

// A state as its image.
pub(crate) fn write(words: &mut Image, disc: Disc)
    ensures { words.new ≡ encode disc }
{
    head::write(words.first_chunk_mut().unwrap(), &disc);
    write_list(words, &disc.fragments);
}
