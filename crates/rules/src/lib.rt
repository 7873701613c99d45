// The rules of a side's terminals, as the table reads them: for each terminal a word of distances and a
// word of columns.
#![tactic(auto)]

ghost use Rattle.std.specs.Prelude.{ℕ, ◌+◌, ◌≤◌, ◌<◌, ◌≡◌, List, length};
ghost use Rattle.channel.specs.Sheet.{Terminal};
ghost use Rattle.channel.specs.Assignment.{in_range};
ghost use Rattle.arrays.specs.Rules.{pins, side_number};
ghost use Rattle.bits.specs.Bits.{bit_of};
ghost use Rattle.terminal.specs.Terminal.{terminal_of};
ghost use Rattle.format.specs.Parts.{terminals_in};
ghost use Rattle.reach.specs.Reach.{terminal_number};
ghost use Rattle.rules.specs.Sides.{TerminalRule, SideRead};

use arrays::RuleTable;
use bits::{below, both, from};
use channel::Side;
use format::Terminals;
use terminal::{Record, amount};

// One terminal's words: bit e of the range is the distance e + 1, and bit x of the allowed set is the
// column x plus the terminal's place.
#[derive(Clone, Copy)]
pub struct Rule {
    pub range: u64,
    pub allowed: u64,
}

// The least distance of a range and its greatest, as the one distance test tells them: by how much 0 is too short, and 255 too long.
fn least_of(least: u8, greatest: u8) -> usize
    ensures { result ≡ least }
{
    match amount(0, 0, least, greatest) {
        Some(short) => short.unsigned_abs() as usize,
        None => 0,
    }
}

fn greatest_of(least: u8, greatest: u8) -> usize
    ensures { result ≡ greatest }
{
    match amount(0, 255, least, greatest) {
        Some(long) => 255 - long.unsigned_abs() as usize,
        None => 255,
    }
}

// The distances from least to greatest, of those from 1 to 64.
fn distances(least: u8, greatest: u8) -> u64
    ensures { (e : ℕ) → e < 64 → bit_of result e ≡ in_range least greatest 0 (e + 1) }
{
    let first = least_of(least, greatest);
    both(
        from(first.saturating_sub(1)),
        below(greatest_of(least, greatest)),
    )
}

// The rule of a terminal with its place, from 1. The first is tied to no terminal before it.
fn rule_of(terminal: Record, place: usize) -> Rule
    requires { (1 ≤ place) × (place ≤ pins) }
    ensures { (ts : List Terminal) → terminal_number ts place ≡ terminal_of terminal → TerminalRule ts place result.range result.allowed }
{
    let allowed = terminal.allowed >> (place - 1);
    if place == 1 {
        return Rule {
            range: u64::MAX,
            allowed,
        };
    }
    Rule {
        range: distances(terminal.least, terminal.greatest),
        allowed,
    }
}

// The rules of one side, from its section.
pub fn read_rules(part: &[u8], rules: &mut RuleTable, side: Side)
    requires { length (terminals_in part.now) ≤ pins }
    ensures { SideRead (side_number side) (terminals_in part.now) rules.old.words rules.new.words }
{
    for (i, terminal) in Terminals::new(part).enumerate() {
        let rule = rule_of(terminal, i + 1);
        rules.put(side, i + 1, rule.range, rule.allowed);
    }
}
