// One word of the table, from the planes before it. `table` has the table.
#![tactic(auto)]

ghost use Rattle.std.specs.Prelude.{ℕ, ◌+◌, ◌-◌, ◌≤◌, ◌<◌, ◌≡◌, true, ◌&&◌, cond, leb, ltb, eqb, length};
ghost use Rattle.arrays.specs.Rules.{range_at, allowed_at, side_number};
ghost use Rattle.arrays.specs.Loads.{load_rows};
ghost use Rattle.bits.specs.Bits.{bit_of};
ghost use Rattle.steps.specs.Stepped.{stepped};
ghost use Rattle.entry.specs.Entry.{start_part, top_part, bottom_part, both_part, cell};
ghost use Rattle.entry.specs.Columns.{Tops, Top, Bottom, Pair, Rows, rows_of, Turned, Holds, United};

use arrays::{RuleTable, loads_at};
use bits::{below, bit, both, either, from, single};
use channel::Side;
use steps::{reversed, steps};

// The table's measures: the rows of a plane, the planes for one i, and the cells of a plane and of those
// planes.
#[derive(Clone, Copy)]
pub struct Grid {
    pub rows: usize,
    pub across: usize,
    pub size: usize,
    pub stride: usize,
}

// What the table is filled by: the rules and the loads of the sheet, the table's measures, and the bound.
#[derive(Clone, Copy)]
pub struct Filling<'a> {
    pub rules: &'a RuleTable,
    pub loads: &'a [u8],
    pub grid: Grid,
    pub bound: u8,
}

// What all rows of plane (i, j) go by: the rows in which anything can stand; the columns in which the last pins may stand, none where the
// load of their column is above the bound; and the steps of the bottom one, and these counted from the other end. In a column with both,
// `pair` is for the top pin and `partner` for the bottom one.
#[derive(Clone, Copy)]
pub struct Columns<'a> {
    pub filling: Filling<'a>,
    pub i: usize,
    pub j: usize,
    rows: u64,
    pub top: u64,
    bottom: u64,
    pub pair: u64,
    partner: u64,
    by: u64,
    back: u64,
    ghost counts: { (i ≤ 64) × (j ≤ 64) },
    ghost rows_are: { Rows filling.rules.now.words filling.loads.now filling.bound i j rows },
    pub ghost tops: { Top filling.rules.now.words filling.loads.now filling.bound i j top },
    ghost bottoms: { Bottom filling.rules.now.words filling.loads.now filling.bound i j bottom },
    pub ghost pairs: { Pair filling.rules.now.words filling.loads.now filling.bound i j pair partner },
    ghost steps: { 0 < j → by ≡ range_at filling.rules.now.words 1 j },
    ghost turned: { Turned by back },
}

impl<'a> Filling<'a> {
    // The columns in which the last of i top pins may stand: with none, the row of no pin.
    fn rows_of(self, i: usize) -> u64
        requires { i ≤ 64 }
        ensures { let f = self.entry in result ≡ rows_of f.rules.now.words i }
    {
        if i == 0 {
            1
        } else {
            self.rules.allowed(Side::Top, i)
        }
    }

    // The columns of the last of n pins of a side.
    #[tactic(auto, using(bits::proofs::Laws::bit_zero))]
    fn last(self, side: Side, n: usize) -> u64
        requires { n ≤ 64 }
        ensures { let f = self.entry in
            (y : ℕ) → bit_of result y ≡ (ltb 0 n && bit_of (allowed_at f.rules.now.words (side_number side) n) y) }
    {
        if n == 0 {
            0
        } else {
            self.rules.allowed(side, n)
        }
    }

    // None of them, where the load is above the bound.
    #[tactic(auto, using(bits::proofs::Laws::bit_zero))]
    fn within(self, load: u8, columns: u64) -> u64
        ensures { let f = self.entry in (y : ℕ) → bit_of result y ≡ (leb load f.bound && bit_of columns y) }
    {
        if load <= self.bound { columns } else { 0 }
    }

    // The rows in which anything can stand: none, where no letter has a column.
    #[tactic(auto, using(crate::proofs::Table::no_letter, crate::proofs::Table::no_row))]
    fn rows(self, i: usize, j: usize, top: u64, bottom: u64, pair: u64) -> u64
        requires { let f = self in
            (i ≤ 64) × (j ≤ 64) × Top f.rules.now.words f.loads.now f.bound i j top
            × Bottom f.rules.now.words f.loads.now f.bound i j bottom
            × Tops f.rules.now.words f.loads.now f.bound i j 2 pair }
        ensures { let f = self.entry in Rows f.rules.now.words f.loads.now f.bound i j result }
    {
        if i + j != 0 && top == 0 && bottom == 0 && pair == 0 {
            return 0;
        }
        self.rows_of(i)
    }

    // The columns of plane (i, j).
    pub fn columns(self, i: usize, j: usize) -> Columns<'a>
        requires { (i ≤ 64) × (j ≤ 64) × (load_rows (i + 1) ≤ length self.loads.now) }
        ensures { let f = self.entry in (result.filling ≡ f) × (result.i ≡ i) × (result.j ≡ j) }
    {
        let loads = loads_at(self.loads, i, j);
        let tops = self.last(Side::Top, i);
        let bottoms = self.last(Side::Bottom, j);
        let top = self.within(loads.top, tops);
        let bottom = self.within(loads.bottom, bottoms);
        let pair = self.within(loads.both, tops);
        let by = if j == 0 {
            0
        } else {
            self.rules.range(Side::Bottom, j)
        };
        Columns {
            filling: self,
            i,
            j,
            rows: self.rows(i, j, top, bottom, pair),
            top,
            bottom,
            pair,
            partner: bottoms,
            by,
            back: reversed(by),
        }
    }
}

// Whether y is reached from a number of w by a step, of steps that are counted from the other end: the numbers from which it is reached
// are these steps moved down.
fn meets(w: u64, back: u64, y: usize) -> bool
    requires { y < 64 }
    ensures { (by : ℕ) → Turned by back → result ≡ stepped w by y }
{
    if both(w, back >> (63 - y)) == 0 {
        return false;
    }
    true
}

impl Columns<'_> {
    // No pin is placed.
    #[tactic(auto, using(bits::proofs::Laws::bit_one, bits::proofs::Laws::bit_zero))]
    fn start(self, x: usize) -> u64
        ensures { let s = self.entry in (y : ℕ) → y < 64 → bit_of result y ≡ start_part s.i s.j x y }
    {
        if self.i == 0 && self.j == 0 && x == 0 {
            1
        } else {
            0
        }
    }

    // The last column holds a top pin alone, whose steps reach `above` from the plane of one top pin less.
    #[tactic(auto, using(bits::proofs::Laws::bit_zero))]
    fn top(self, x: usize, above: u64) -> u64
        requires { let s = self in let f = s.filling in
            (x < 64) × (bit_of s.top x ≡ true → United f.rules.now.words f.loads.now f.bound s.i s.j x above) }
        ensures { let s = self.entry in let f = s.filling in
            (y : ℕ) → y < 64
            → bit_of result y ≡ top_part f.rules.now.words f.loads.now f.bound s.i s.j
            (cell f.rules.now.words f.loads.now f.bound (s.i - 1) s.j) x y }
    {
        let Columns { i, j, .. } = self;
        if x + i <= j || !bit(self.top, x) {
            return 0;
        }
        both(above, below(x + i - j))
    }

    // A bottom pin alone, from the same row of the plane of one bottom pin less.
    #[tactic(auto, using(bits::proofs::Laws::bit_zero))]
    fn bottom(self, x: usize, before: u64) -> u64
        requires { let s = self in let f = s.filling in
            (x < 64) × (0 < s.j → Holds x (cell f.rules.now.words f.loads.now f.bound s.i (s.j - 1)) before) }
        ensures { let s = self.entry in let f = s.filling in
            (y : ℕ) → y < 64
            → bit_of result y ≡ bottom_part f.rules.now.words f.loads.now f.bound s.i s.j
            (cell f.rules.now.words f.loads.now f.bound s.i (s.j - 1)) x y }
    {
        let Columns { i, j, .. } = self;
        if self.bottom == 0 {
            return 0;
        }
        if before == 0 {
            return 0;
        }
        let found = both(self.bottom, steps(before, self.by));
        if x + i < j {
            return found;
        }
        both(found, from(x + i - j + 1))
    }

    // Both, whose top pin's steps reach `diagonal` from the plane of one of each less.
    #[tactic(auto, using(bits::proofs::Laws::bit_zero))]
    fn pair(self, x: usize, diagonal: u64) -> u64
        requires { let s = self in let f = s.filling in
            (x < 64)
            × (bit_of s.pair x ≡ true → 0 < s.j
            → United f.rules.now.words f.loads.now f.bound s.i (s.j - 1) x diagonal) }
        ensures { let s = self.entry in let f = s.filling in
            (y : ℕ) → y < 64
            → bit_of result y ≡ both_part f.rules.now.words f.loads.now f.bound s.i s.j
            (cell f.rules.now.words f.loads.now f.bound (s.i - 1) (s.j - 1)) x y }
    {
        let Columns { i, j, .. } = self;
        if x + i < j || 64 <= x + i - j {
            return 0;
        }
        let y = x + i - j;
        if !bit(self.pair, x) || !bit(self.partner, y) {
            return 0;
        }
        if !meets(diagonal, self.back, y) {
            return 0;
        }
        single(y)
    }

    // The word of row x. The unions are asked only where they are used.
    #[tactic(auto, using(bits::proofs::Laws::bit_zero))]
    pub fn word(self, x: usize, above: u64, before: u64, diagonal: u64) -> u64
        requires { let s = self in let f = s.filling in
            (x < 64) × (bit_of s.top x ≡ true → United f.rules.now.words f.loads.now f.bound s.i s.j x above)
            × (0 < s.j → Holds x (cell f.rules.now.words f.loads.now f.bound s.i (s.j - 1)) before)
            × (bit_of s.pair x ≡ true → 0 < s.j
            → United f.rules.now.words f.loads.now f.bound s.i (s.j - 1) x diagonal) }
        ensures { let s = self.entry in let f = s.filling in
            Holds x (cell f.rules.now.words f.loads.now f.bound s.i s.j) result }
    {
        if !bit(self.rows, x) {
            return 0;
        }
        let nothing = self.start(x);
        let one = self.top(x, above);
        let other = self.bottom(x, before);
        let two = self.pair(x, diagonal);
        either(nothing, either(one, either(other, two)))
    }
}
