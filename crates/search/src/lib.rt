// The search for the fragment that an address lies in. Along a sound list the starts rise, so a look at one record tells on which side of
// it that fragment stands, and the records in question are halved at each look.
// Everything here is total: on a list that is not sound it makes the same looks, and may miss the fragment.
#![tactic(auto)]

mod search;

pub use search::{Sought, halving};
