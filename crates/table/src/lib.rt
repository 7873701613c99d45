// The table of the places that the pins can reach under a density bound. For i top and j bottom pins
// placed, the last top one in column x + i, a word holds the columns of the last bottom one: bit y for
// column y + j. Row x of plane (i, j) is the word in the four cells at i * stride + j * size + 4 * x.
#![tactic(auto)]

mod plane;
mod query;

pub use plane::fill;
pub use query::{Follower, Plane};
