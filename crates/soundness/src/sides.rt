// 6 to 8: the terminals of one side.
ghost use Rattle.std.specs.Prelude.{◌≡◌, true};
ghost use Rattle.channel.specs.Sheet.{distances_hold};
ghost use Rattle.terminal.specs.Terminal.{terminal_of};
ghost use Rattle.format.specs.Parts.{terminals_in};
ghost use Rattle.soundness.specs.Check.{terminal_check, side_check};

use format::Terminals;
use refusals::{Checked, Refusal};
use terminal::{Record, names_above};

// All terminals of a section, in order.
pub fn check_side(section: &[u8], columns: usize) -> Checked
    ensures { result ≡ side_check columns true (terminals_in section.now) }
{
    let mut first = true;
    for record in Terminals::new(section) {
        check_record(record, first, columns)?;
        first = false;
    }
    Ok(())
}

// One terminal.
#[tactic(auto, unfolding(crate::specs::Check::terminal_check))]
fn check_record(r: Record, first: bool, columns: usize) -> Checked
    ensures { result ≡ terminal_check columns first (terminal_of r) }
{
    if r.net == 0 {
        return Err(Refusal::Net);
    }
    if !keeps_rule(r, first) {
        return Err(Refusal::Distance);
    }
    if names_above(r.allowed, columns) {
        return Err(Refusal::Beyond);
    }
    Ok(())
}

// Whether a distance pair keeps its rule.
fn keeps_rule(r: Record, first: bool) -> bool
    ensures { result ≡ distances_hold first (terminal_of r) }
{
    if first {
        r.least == 0 && r.greatest == 0
    } else {
        1 <= r.least && r.least <= r.greatest
    }
}
