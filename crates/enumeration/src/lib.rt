// Every list of allowed columns of a small sheet, and the tracks and the chains of a list, by the definitions alone: nothing here asks the
// library. So spans, ends, amounts and words, which the library has too, stand here again on purpose.
#![tactic(auto)]

mod assignments;
mod chains;
mod constraints;
mod crossings;
mod lists;
mod routes;
mod sheets;
mod words;

pub use assignments::{Best, find_best};
pub use chains::{Chain, Circle};
pub use crossings::{Ends, leaves};
pub use lists::{column, count_lists, list_of};
pub use routes::{NoTracks, Routing, Span, Spans};
pub use sheets::{List, Nets, Pins, ROOM, Sheet};
