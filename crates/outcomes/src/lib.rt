// What every decision of the lower layer has, as laws, and the lower read: the medium's share of a READ as a part of the medium.
// Document 01 is the specification; specs/ restates it as definitions, and every contract cites those.
#![tactic(auto)]

mod run;

pub use run::recorded_run;
