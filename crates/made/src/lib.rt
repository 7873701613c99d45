// The answer about two sides of modules, and its number by the refusal list.
#![tactic(auto)]

ghost use Rattle.made.specs.Numbers.{module_number};

use refusals::{Reason, Refusal};

// The length of the sheet that was written, or why there is none.
pub type Made = Result<usize, ModuleRefusal>;

// Why no sheet is made: its form or its nets would be refused, a module breaks its rule or has a left edge outside the channel, or the sheet
// buffer is too short.
#[derive(Clone, Copy, Debug, PartialEq, Eq)]
pub enum ModuleRefusal {
    Sheet(Refusal),
    Module,
    Edge,
    SheetBuffer,
}

impl Reason for ModuleRefusal {
    ghost number = { module_number };

    fn number(self) -> u8 {
        match self {
            ModuleRefusal::Sheet(refusal) => refusal.number(),
            ModuleRefusal::Module => 16,
            ModuleRefusal::Edge => 17,
            ModuleRefusal::SheetBuffer => 9,
        }
    }
}
