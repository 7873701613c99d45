// The allowed columns of a side's pins that the pins on either hand leave them.
#![tactic(auto)]

ghost use Rattle.std.specs.Prelude.{◌≤◌, ◌≡◌, length};
ghost use Rattle.arrays.specs.Rules.{pins, side_number};
ghost use Rattle.clip.specs.Clip.{FromLeft, FromRight, Clipped, side_open};

use arrays::RuleTable;
use bits::both;
use channel::Side;
use steps::{steps, steps_back};

// Of the allowed columns of each of a side's n pins keeps those that some column of the pin before it reaches within its range, and
// of these those that reach one of the pin behind it. Whether any column is left for the last.
pub fn clip(rules: &mut RuleTable, side: Side, n: usize) -> bool
    requires { n ≤ pins }
    ensures sets { Clipped (side_number side) n rules.old.words rules.new.words }
    ensures is_open { result ≡ side_open (side_number side) n rules.new.words }
{
    if n == 0 {
        return true;
    }
    from_left(rules, side, n);
    from_right(rules, side, n);
    rules.allowed(side, n) != 0
}

// Pin by pin from the left: the columns that some column kept for the pin before reaches.
fn from_left(rules: &mut RuleTable, side: Side, n: usize)
    requires { (1 ≤ n) × (n ≤ pins) }
    ensures { FromLeft (side_number side) n rules.old.words rules.new.words }
{
    for i in 1..n {
        let reached = steps(rules.allowed(side, i), rules.range(side, i + 1));
        rules.put_allowed(side, i + 1, both(rules.allowed(side, i + 1), reached));
    }
}

// Pin by pin from the right: the columns that reach some column kept for the pin behind.
fn from_right(rules: &mut RuleTable, side: Side, n: usize)
    requires { (1 ≤ n) × (n ≤ pins) }
    ensures { FromRight (side_number side) 1 n rules.old.words rules.new.words }
{
    for i in (1..n).rev() {
        let reaching = steps_back(rules.allowed(side, i + 1), rules.range(side, i + 1));
        rules.put_allowed(side, i, both(rules.allowed(side, i), reaching));
    }
}
