// The answer of a measurement. specs/Numbers.antt says its number, density and amount by document 01's refusal list.
#![tactic(auto)]

use refusals::ListRefusal;

// The density of a column list, or why it has none.
pub type Measured = Result<u32, ListRefusal>;
