// The least columns in which the last of i top and j bottom pins can stand under a bound, going by sets and orders alone, and the least
// bound under which all pins so have a column of the channel.
#![tactic(auto)]

ghost use Rattle.std.specs.Prelude.{◌+◌, ◌≤◌, ◌<◌, ◌≡◌, true, length};
ghost use Rattle.channel.specs.Density.{most_density};
ghost use Rattle.arrays.specs.Rules.{pins, side_number};
ghost use Rattle.arrays.specs.Loads.{load_rows};
ghost use Rattle.least.specs.Least.{set_at, next_in, letter_last, top_last, bottom_last, both_last, least_in};
ghost use Rattle.least.specs.Table.{cell_of, cells_of, HoldsTo, Written, Tried, Bounded, fits_by_order};

use arrays::{RuleTable, loads_at};
use bits::lowest;
use bound::lower_bound;
use channel::Side;

// What goes by order: the rules and the loads of p top and q bottom pins in l columns, where under some bound all pins have a column of the
// channel.
#[derive(Clone, Copy)]
pub struct Order<'a> {
    pub rules: &'a RuleTable,
    pub loads: &'a [u8],
    pub p: usize,
    pub q: usize,
    pub l: usize,
    ghost counts: { (p ≤ pins) × (q ≤ pins) × (l ≤ 64) },
    ghost loaded: { load_rows (p + 1) ≤ length loads.now },
    ghost enough: { fits_by_order rules.now.words loads.now l p q most_density ≡ true },
}

// The columns of a pin's set: bit c for column c + 1.
pub fn set_at(rules: &RuleTable, side: Side, i: usize) -> u64
    requires { (1 ≤ i) × (i ≤ pins) }
    ensures { result ≡ set_at rules.now.words (side_number side) i }
{
    rules.allowed(side, i) << (i - 1)
}

// The least column of the set above m, or l + 1.
#[tactic(auto, using(crate::proofs::Next::next_none, crate::proofs::Next::next_lowest))]
fn next_in(set: u64, m: u16, l: usize) -> u16
    requires { l ≤ 64 }
    ensures { result ≡ next_in l set m }
{
    if l <= m as usize {
        return l as u16 + 1;
    }
    let next = lowest((set >> m) << m);
    next.min(l) as u16 + 1
}

// The same where the load is within the bound.
fn letter_last(l: usize, bound: u8, load: u8, set: u64, m: u16) -> u16
    requires { l ≤ 64 }
    ensures { result ≡ letter_last l bound load set m }
{
    if bound < load {
        return l as u16 + 1;
    }
    next_in(set, m, l)
}

impl Order<'_> {
    // The column furthest right holds a top pin, a bottom pin, or both; the least column before is m.
    fn top(self, i: usize, j: usize, bound: u8, m: u16) -> u16
        requires { (1 ≤ i) × (i ≤ self.p) × (j ≤ self.q) }
        ensures { let s = self.entry in result ≡ top_last s.rules.now.words s.loads.now s.l bound i j m }
    {
        let set = set_at(self.rules, Side::Top, i);
        letter_last(self.l, bound, loads_at(self.loads, i, j).top, set, m)
    }

    fn bottom(self, i: usize, j: usize, bound: u8, m: u16) -> u16
        requires { (i ≤ self.p) × (1 ≤ j) × (j ≤ self.q) }
        ensures { let s = self.entry in result ≡ bottom_last s.rules.now.words s.loads.now s.l bound i j m }
    {
        let set = set_at(self.rules, Side::Bottom, j);
        letter_last(self.l, bound, loads_at(self.loads, i, j).bottom, set, m)
    }

    fn pair(self, i: usize, j: usize, bound: u8, m: u16) -> u16
        requires { (1 ≤ i) × (i ≤ self.p) × (1 ≤ j) × (j ≤ self.q) }
        ensures { let s = self.entry in result ≡ both_last s.rules.now.words s.loads.now s.l bound i j m }
    {
        let set = set_at(self.rules, Side::Top, i) & set_at(self.rules, Side::Bottom, j);
        letter_last(self.l, bound, loads_at(self.loads, i, j).both, set, m)
    }

    // The least column of (i, j), from the cells before its own.
    #[tactic(auto, using(crate::proofs::Table::from_none, crate::proofs::Table::from_bottoms, crate::proofs::Table::from_tops, crate::proofs::Table::from_all))]
    fn least(self, work: &[u16], i: usize, j: usize, bound: u8) -> u16
        requires { (i ≤ self.p) × (j ≤ self.q) × (cell_of self.q i j < length work.now)
            × HoldsTo self.rules.now.words self.loads.now self.l bound self.q (cell_of self.q i j) work.now }
        ensures { let s = self.entry in result ≡ least_in s.rules.now.words s.loads.now s.l bound i j }
    {
        let across = self.q + 1;
        let at = across * i + j;
        match (i, j) {
            (0, 0) => 0,
            (0, _) => self.bottom(i, j, bound, work[at - 1]),
            (_, 0) => self.top(i, j, bound, work[at - across]),
            _ => {
                let top = self.top(i, j, bound, work[at - across]);
                let bottom = self.bottom(i, j, bound, work[at - 1]);
                let pair = self.pair(i, j, bound, work[at - across - 1]);
                top.min(bottom.min(pair))
            }
        }
    }

    // Puts in the least columns of i top pins.
    fn fill_row(self, work: &mut [u16], i: usize, bound: u8)
        requires { (i ≤ self.p) × (cells_of self.p self.q ≤ length work.old)
            × HoldsTo self.rules.now.words self.loads.now self.l bound self.q (cell_of self.q i 0) work.old }
        ensures { let s = self.entry in
            Written s.rules.now.words s.loads.now s.l bound s.q (cell_of s.q (i + 1) 0) work.old work.new }
    {
        for j in 0..self.q + 1 {
            let least = self.least(work, i, j, bound);
            work[(self.q + 1) * i + j] = least;
        }
    }

    // Puts in all of them, and says whether all pins have a column of the channel.
    fn try_bound(self, work: &mut [u16], bound: u8) -> bool
        requires { cells_of self.p self.q ≤ length work.old }
        ensures { let s = self.entry in
            Tried s.rules.now.words s.loads.now s.l s.p s.q bound work.old work.new result }
    {
        for i in 0..self.p + 1 {
            self.fill_row(work, i, bound);
        }
        work[(self.q + 1) * self.p + self.q] as usize <= self.l
    }

    // The least bound under which all pins have a column of the channel, with the least columns under it. No bound below the first that is
    // tried is such a one.
    #[tactic(auto, using(crate::proofs::Lower::below_lower))]
    pub fn least_bound(self, work: &mut [u16]) -> u8
        requires { cells_of self.p self.q ≤ length work.old }
        ensures { let s = self.entry in
            Bounded s.rules.now.words s.loads.now s.l s.p s.q work.old work.new result }
    {
        let mut bound = lower_bound(self.loads, self.p, self.q);
        // no `for`: it ends with the first bound under which all pins have one
        while !self.try_bound(work, bound) {
            bound += 1;
        }
        bound
    }
}
