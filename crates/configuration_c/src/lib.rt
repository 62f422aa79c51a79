// The C face of the reader of GET CONFIGURATION's replies: the export that a host in C or Rust links, which calls the reader and repeats
// its promise. include/gladhamre_configuration.h declares it. It is total. A function of its own, for C under this name: a static library
// cannot be a dependency, and others stand on configuration.
#![tactic(auto)]

ghost use Rattle.configuration.specs.Face.{Faced};

// Reads a reply into twelve words: 0. It is 1 where the reply is no uncut one of the drive, and 2 where there are not twelve words; then
// the words stay.
#[unsafe(no_mangle)]
pub extern "C" fn gladhamre_configuration(reply: &[u8], words: &mut [u32]) -> u32
    ensures { Faced reply.now words.old result words.new }
{
    configuration::gladhamre_configuration(reply, words)
}
