// The terminal layer: what one terminal's record says.
#![tactic(auto)]

mod columns;

pub use columns::{allows, amount, names_above};

// The fields of one terminal's record.
#[derive(Clone, Copy, Default)]
pub struct Record {
    pub net: u16,
    pub least: u8,
    pub greatest: u8,
    pub allowed: u64,
}
