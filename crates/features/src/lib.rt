// What GET CONFIGURATION says: the drive's features, which of them a request asks for, and the bytes of the whole reply. Nothing here
// needs a disc or a command.
#![tactic(auto)]

mod feature;
mod listing;

pub use feature::{ALL_FEATURES, COUNT, ONE_FEATURE, PROFILE};
pub use listing::{Asked, Listing, configuration, configuration_length, numbers};
