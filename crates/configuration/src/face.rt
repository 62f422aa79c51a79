// What is read of a reply, in words, as the C face hands it out: crate configuration_c exports the public function.
ghost use Rattle.std.specs.Prelude.{◌≡◌, ◌≤◌};
ghost use Rattle.configuration.specs.Face.{words_of, Faced};

use crate::reader;
use crate::reader::Reading;

// Words of what is read: the profile, the number of features, and their numbers.
const WORDS: usize = 12;

// Writes what is read into the words.
fn write(words: &mut [u32; WORDS], reading: Reading)
    requires { reading.features.count ≤ 10 }
    ensures { words.new ≡ words_of reading }
{
    words[0] = reading.profile;
    words[1] = reading.features.count as u32;
    words[2..].copy_from_slice(&reading.features.numbers);
}

// Reads a reply into twelve words: 0. It is 1 where the reply is no uncut one of the drive, and 2 where there are not twelve words; then
// the words stay. Numbers and a slice: C calls it. It stands in configuration_c too, which exports it for C under this name: a static library
// cannot be a dependency.
pub fn gladhamre_configuration(reply: &[u8], words: &mut [u32]) -> u32
    ensures { Faced reply.now words.old result words.new }
{
    let Some(words) = words.as_mut_array() else {
        return 2;
    };
    let Some(reading) = reader::read(reply) else {
        return 1;
    };
    write(words, reading);
    0
}
