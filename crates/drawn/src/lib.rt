// Small sheets and lists of columns for them, by number, for programs that try many: each number gives the same on every run.
#![tactic(auto)]

mod draws;
mod lists;
mod sheets;

pub use draws::{bits, draw};
pub use lists::{Choice, Kind, Trial};
pub use sheets::{net_of, plan_of, put_sheet, roomy_sheet_of, sheet_of, single};
