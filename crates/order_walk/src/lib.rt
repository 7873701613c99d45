// The walk from column L down that reads its letters off the least columns: where no distance binds, the walk of the whole search.
#![tactic(auto)]

ghost use Rattle.std.specs.Prelude.{◌+◌, ◌-◌, ◌≤◌, ◌<◌, ◌≡◌, ◌&&◌, leb, length};
ghost use Rattle.arrays.specs.Rules.{pins, side_number};
ghost use Rattle.bits.specs.Bits.{bit_of};
ghost use Rattle.letters.specs.Letters.{letter_number};
ghost use Rattle.letters.specs.Walking.{AsksStep, whole_walk};
ghost use Rattle.least.specs.Least.{set_at as set_of};
ghost use Rattle.least.specs.Table.{cells_of, HoldsTo};
ghost use Rattle.order_walk.specs.OrderWalk.{rest_fits, top_fits, bottom_fits, order_choice_in};

use arrays::loads_at;
use bits::bit;
use channel::Side;
use least::{Order, set_at};
use letters::{Letter, Progress, behind, put};

// The least columns under a bound, in their cells.
#[derive(Clone, Copy)]
pub struct OrderWalk<'a> {
    pub work: &'a [u16],
    pub order: Order<'a>,
    pub bound: u8,
    ghost lies: { cells_of order.p order.q ≤ length work.now },
    ghost holds: { HoldsTo order.rules.now.words order.loads.now order.l bound order.q (cells_of order.p order.q) work.now },
}

// How far a walk has come, with a column left.
#[derive(Clone, Copy)]
struct Step<'a> {
    walk: OrderWalk<'a>,
    m: Progress,
    ghost stands: { AsksStep walk.order.p walk.order.q m × (0 < m.c) },
}

impl Step<'_> {
    // Whether i top and j bottom pins have room left of the column.
    #[tactic(auto, using(least::proofs::Table::in_cells))]
    fn rest_fits(self, i: usize, j: usize) -> bool
        requires { (i ≤ self.walk.order.p) × (j ≤ self.walk.order.q) }
        ensures { let s = self.entry in let o = s.walk.order in
            result ≡ rest_fits o.rules.now.words o.loads.now o.l s.walk.bound s.m i j }
    {
        let least = self.walk.work[(self.walk.order.q + 1) * i + j];
        least as usize <= self.m.c - 1
    }

    // Whether the column can hold the i-th pin of a side, with this load.
    fn pin_fits(self, side: Side, i: usize, load: u8) -> bool
        requires { (1 ≤ i) × (i ≤ pins) }
        ensures { let s = self.entry in let w = s.walk in
            result ≡ (leb load w.bound && bit_of (set_of w.order.rules.now.words (side_number side) i) (s.m.c - 1)) }
    {
        let w = self.walk;
        load <= w.bound && bit(set_at(w.order.rules, side, i), self.m.c - 1)
    }

    // Whether it can hold a top pin alone.
    fn top_fits(self) -> bool
        ensures { let s = self.entry in let o = s.walk.order in
            result ≡ top_fits o.rules.now.words o.loads.now o.l s.walk.bound s.m }
    {
        let Progress { i, j, .. } = self.m;
        if i == 0 {
            return false;
        }
        let load = loads_at(self.walk.order.loads, i, j).top;
        self.pin_fits(Side::Top, i, load) && self.rest_fits(i - 1, j)
    }

    // Whether it can hold a bottom pin alone.
    fn bottom_fits(self) -> bool
        ensures { let s = self.entry in let o = s.walk.order in
            result ≡ bottom_fits o.rules.now.words o.loads.now o.l s.walk.bound s.m }
    {
        let Progress { i, j, .. } = self.m;
        if j == 0 {
            return false;
        }
        let load = loads_at(self.walk.order.loads, i, j).bottom;
        self.pin_fits(Side::Bottom, j, load) && self.rest_fits(i, j - 1)
    }

    // The smallest letter after which the rest can still be placed by order.
    #[tactic(auto, unfolding(crate::specs::OrderWalk::order_choice_in))]
    fn choose(self) -> Letter
        ensures { let s = self.entry in let o = s.walk.order in
            letter_number result ≡ order_choice_in o.rules.now.words o.loads.now o.l s.walk.bound s.m }
    {
        let Progress { i, j, .. } = self.m;
        if self.rest_fits(i, j) {
            return Letter::Empty;
        }
        if self.top_fits() {
            return Letter::Top;
        }
        if self.bottom_fits() {
            return Letter::Bottom;
        }
        Letter::Both
    }
}

impl OrderWalk<'_> {
    // Writes the columns of the walk.
    #[tactic(auto, using(letters::proofs::Walking::walk_none))]
    pub fn walk(self, columns: &mut [u8])
        requires { self.order.p + self.order.q ≤ length columns.old }
        ensures { let w = self.entry in let o = w.order in
            columns.new ≡ whole_walk (order_choice_in o.rules.now.words o.loads.now o.l w.bound) o.l o.p o.q columns.old }
    {
        let Order { p, q, l, .. } = self.order;
        let mut m = Progress {
            c: l,
            i: p,
            j: q,
            top: 0,
            bottom: 0,
        };
        // no `for`: the walk itself counts the columns that are left, and a range would count them once more
        while 0 < m.c {
            let step = Step { walk: self, m };
            let letter = step.choose();
            put(columns, p, letter, m);
            m = behind(letter, m);
        }
    }
}
