// The reader of GET CONFIGURATION's replies, for the host's side: it needs no drive and no disc. Crate configuration_c exports its words
// for C. Every function is total.
#![tactic(auto)]

mod face;
mod reader;

pub use face::gladhamre_configuration;
pub use reader::{Reading, read};
