// The walk from column L down that takes the smallest letter after which the rest can still be placed.
#![tactic(auto)]

ghost use Rattle.std.specs.Prelude.{ℕ, ◌+◌, ◌-◌, ◌≤◌, ◌<◌, ◌≡◌, length};
ghost use Rattle.arrays.specs.Rules.{pins, side_number};
ghost use Rattle.bits.specs.Bits.{bit_of};
ghost use Rattle.letters.specs.Letters.{letter_number};
ghost use Rattle.walk.specs.Walk.{steps_to, stands_at, lefts, empty_meets, top_meets, bottom_fits, choice_in};
ghost use Rattle.letters.specs.Walking.{AsksStep, whole_walk};
ghost use Rattle.table.specs.Planes.{AsksTable, meeting};
ghost use Rattle.walk.specs.Walking.{AsksWalk};

use arrays::RuleTable;
use bits::single;
use channel::Side;
use entry::Grid;
use letters::{Letter, Progress, behind, put};
use table::{Follower, Plane};

// A filled table, with the rules that it was filled by: p top and q bottom pins.
#[derive(Clone, Copy)]
pub struct Walk<'a> {
    pub work: &'a [u16],
    pub rules: &'a RuleTable,
    pub grid: Grid,
    pub p: usize,
    pub q: usize,
    ghost lies: { AsksWalk work.now grid p q },
}

// The pin behind the last one to be placed, which is placed at `at`.
fn follower(rules: &RuleTable, side: Side, i: usize, n: usize, at: usize) -> Follower
    requires { (i ≤ n) × (n ≤ pins) × (i < n → i + 1 ≤ at) }
    ensures { (result.at ≡ stands_at i n at) × (result.by ≡ steps_to rules.now.words (side_number side) i n) }
{
    if i == n {
        return Follower::NONE;
    }
    Follower {
        at: at - (i + 1),
        by: rules.range(side, i + 1),
    }
}

// How far a walk has come, with a column left.
#[derive(Clone, Copy)]
struct Step<'a> {
    walk: Walk<'a>,
    m: Progress,
    ghost stands: { AsksStep walk.p walk.q m × (0 < m.c) },
}

impl Step<'_> {
    // The numbers left of the column.
    #[tactic(auto, using(crate::proofs::Choices::no_lefts))]
    fn left_numbers(self) -> u64
        ensures { let s = self.entry in let w = s.walk in let m = s.m in
            (y : ℕ) → y < 64 → bit_of result y ≡ lefts w.rules.now.words w.q m y }
    {
        let w = self.walk;
        let Progress { c, j, bottom, .. } = self.m;
        let left = c - 1;
        if left < j {
            return 0;
        }
        follower(w.rules, Side::Bottom, j, w.q, bottom).back(left - j)
    }

    // Whether a row from `low` to `high` that may hold the last top pin meets a set of numbers.
    fn rows_meet(self, low: usize, high: usize, set: u64) -> bool
        requires { let w = self.walk in let m = self.m in
            (low ≤ high) × (high < w.grid.rows) × (m.i < w.p → high + (m.i + 1) ≤ m.top) }
        ensures { let s = self.entry in let w = s.walk in let m = s.m in
            result ≡ meeting w.work.now w.grid m.i m.j low high (stands_at m.i w.p m.top)
            (steps_to w.rules.now.words 0 m.i w.p) set }
    {
        let w = self.walk;
        let m = self.m;
        let plane = Plane {
            work: w.work,
            grid: w.grid,
            i: m.i,
            j: m.j,
        };
        let next = follower(w.rules, Side::Top, m.i, w.p, m.top);
        plane.meets(low, high, next, set)
    }

    // Whether the column can be empty.
    #[tactic(auto, using(crate::proofs::Choices::rows_left))]
    fn empty_fits(self, lefts: u64) -> bool
        ensures { let s = self.entry in let w = s.walk in let m = s.m in
            result ≡ empty_meets w.work.now w.rules.now.words w.grid w.p m lefts }
    {
        let Progress { c, i, .. } = self.m;
        let left = c - 1;
        if left < i {
            return false;
        }
        let high = (left - i).min(self.walk.grid.rows - 1);
        self.rows_meet(0, high, lefts)
    }

    // Whether it can hold a top pin alone.
    #[tactic(auto, using(crate::proofs::Choices::row_here))]
    fn top_fits(self, lefts: u64) -> bool
        ensures { let s = self.entry in let w = s.walk in let m = s.m in
            result ≡ top_meets w.work.now w.rules.now.words w.grid w.p m lefts }
    {
        let Progress { c, i, .. } = self.m;
        if i == 0 || c < i {
            return false;
        }
        let row = c - i;
        row < self.walk.grid.rows && self.rows_meet(row, row, lefts)
    }

    // Whether it can hold a bottom pin alone.
    fn bottom_fits(self) -> bool
        ensures { let s = self.entry in let w = s.walk in let m = s.m in
            result ≡ bottom_fits w.work.now w.rules.now.words w.grid w.p w.q m }
    {
        let w = self.walk;
        let Progress { c, j, bottom, .. } = self.m;
        if j == 0 || c < j {
            return false;
        }
        let number = c - j;
        let next = follower(w.rules, Side::Bottom, j, w.q, bottom);
        next.near(number) && self.empty_fits(single(number))
    }

    // The smallest letter after which the rest can still be placed.
    #[tactic(auto, using(crate::proofs::Choices::chose_empty, crate::proofs::Choices::chose_top, crate::proofs::Choices::chose_bottom, crate::proofs::Choices::chose_both))]
    fn choose(self) -> Letter
        ensures { let s = self.entry in let w = s.walk in let m = s.m in
            letter_number result ≡ choice_in w.work.now w.rules.now.words w.grid w.p w.q m }
    {
        let lefts = self.left_numbers();
        if self.empty_fits(lefts) {
            return Letter::Empty;
        }
        if self.top_fits(lefts) {
            return Letter::Top;
        }
        if self.bottom_fits() {
            return Letter::Bottom;
        }
        Letter::Both
    }
}

impl Walk<'_> {
    // Writes the columns of the walk over the table.
    #[tactic(auto, using(letters::proofs::Walking::walk_none))]
    pub fn walk(self, l: usize, columns: &mut [u8])
        requires { (l ≤ 64) × (self.p + self.q ≤ length columns.old) }
        ensures { let w = self.entry in
            columns.new ≡ whole_walk (choice_in w.work.now w.rules.now.words w.grid w.p w.q) l w.p w.q columns.old }
    {
        let mut m = Progress {
            c: l,
            i: self.p,
            j: self.q,
            top: 0,
            bottom: 0,
        };
        // no `for`: the walk itself counts the columns that are left, and a range would count them once more
        while 0 < m.c {
            let step = Step { walk: self, m };
            let letter = step.choose();
            put(columns, self.p, letter, m);
            m = behind(letter, m);
        }
    }
}
