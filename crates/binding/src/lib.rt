// Whether the distances of a side bind: whether they rule out what its sets and orders alone would let stand.
#![tactic(auto)]

ghost use Rattle.std.specs.Prelude.{◌≤◌, ◌≡◌};
ghost use Rattle.arrays.specs.Rules.{pins, side_number};
ghost use Rattle.binding.specs.Binding.{end_of, out_of_range, none_binds};

use arrays::RuleTable;
use bits::{below, both, from};
use channel::Side;

// One more than the highest number of a set; 0 where it is empty.
fn end(w: u64) -> usize
    ensures { result ≡ end_of w }
{
    64 - w.leading_zeros() as usize
}

// Whether some distance that the ends of two sets leave is not in the range.
fn out_of_range(set: u64, next: u64, range: u64) -> bool
    ensures { result ≡ out_of_range set next range }
{
    let low = set.trailing_zeros() as usize;
    let next_low = next.trailing_zeros() as usize;
    let start = (next_low + 1).saturating_sub(end(set));
    let behind = end(next).saturating_sub(low);
    let left = both(from(start), below(behind));
    both(left, range) != left
}

// Whether no distance of a side of n pins binds, told by the ends of each two sets that follow each other.
#[tactic(auto, using(crate::proofs::Binding::some_out, crate::proofs::Binding::none_out))]
pub fn none_binds(rules: &RuleTable, side: Side, n: usize) -> bool
    requires { n ≤ pins }
    ensures { result ≡ none_binds rules.now.words (side_number side) n }
{
    for i in 1..n {
        let set = rules.allowed(side, i);
        let next = rules.allowed(side, i + 1);
        if out_of_range(set, next, rules.range(side, i + 1)) {
            return false;
        }
    }
    true
}
