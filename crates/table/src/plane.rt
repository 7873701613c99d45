// Filling the table, plane by plane.
ghost use Rattle.std.specs.Prelude.{◌+◌, ◌-◌, ◌*◌, ◌≤◌, ◌<◌, ◌≡◌, true, false, length, leb};
ghost use Rattle.table.specs.Planes.{Measures, Earlier, Filled, AsksTable, base_of};
ghost use Rattle.table.specs.United.{Alone, Paired, Zeros};
ghost use Rattle.table.specs.Empty.{Empty, Told};
ghost use Rattle.arrays.specs.Loads.{load_rows, load_at};
ghost use Rattle.bits.specs.Bits.{bit_of};
ghost use Rattle.entry.specs.Entry.{cell};
ghost use Rattle.entry.specs.Columns.{Holds, United};

use crate::query::Plane;
use arrays::loads_at;
use bits::either;
use cells::{read_word, write_word};
use channel::Side;
use entry::{Columns, Filling};
use rows::unite;

// The cells and what fills them stay two parameters: of a type that held both, each function would have to say too that the cells are still
// the caller's and that what fills them is the same.

// Whether the unions of the plane of (i - 1, j) are used: for a top pin alone, or for a pair one bottom pin later.
fn used(filling: Filling, i: usize, j: usize) -> bool
    requires { let f = filling in Measures f.grid × (i ≤ 64) × (j < f.grid.across) × (load_rows (i + 1) ≤ length f.loads.now) }
    ensures { let f = filling.entry in
        (leb (load_at f.loads.now i j 0) f.bound ≡ true → result ≡ true)
        × (j + 1 < f.grid.across → leb (load_at f.loads.now i (j + 1) 2) f.bound ≡ true → result ≡ true) }
{
    if loads_at(filling.loads, i, j).top <= filling.bound {
        return true;
    }
    j + 1 < filling.grid.across && loads_at(filling.loads, i, j + 1).both <= filling.bound
}

// Puts in those unions, by the steps of the i-th top pin: none where that plane is empty, which `some` may rule out.
fn unite_above(
    work: &[u16],
    filling: Filling,
    i: usize,
    j: usize,
    some: bool,
    unions: &mut [u64; 64],
)
    requires { let f = filling in
        Measures f.grid × (i ≤ 64) × (j < f.grid.across) × (base_of f.grid i j + f.grid.size ≤ length work.now)
        × Earlier f.rules.now.words f.loads.now f.bound f.grid i j work.now
        × (load_rows (i + 1) ≤ length f.loads.now)
        × (0 < i → some ≡ false → Empty f.rules.now.words f.loads.now f.bound f.grid (i - 1) j) }
    ensures { let f = filling.entry in
        Alone f.rules.now.words f.loads.now f.bound f.grid i j unions.new
        × (j + 1 < f.grid.across → Paired f.rules.now.words f.loads.now f.bound f.grid i (j + 1) unions.new)
        × (some ≡ false → Zeros f.grid unions.new) }
{
    if i == 0 || !some || !used(filling, i, j) {
        *unions = [0; 64];
        return;
    }
    let plane = Plane {
        work,
        grid: filling.grid,
        i: i - 1,
        j,
    };
    let range = filling.rules.range(Side::Top, i);
    unite(work, plane.start(), filling.grid.rows, range, unions);
}

// The word of row x of the plane that starts at `at`.
fn row(work: &[u16], columns: Columns, at: usize, x: usize, above: u64, diagonal: u64) -> u64
    requires { let s = columns in let f = s.filling in
        Measures f.grid × (x < f.grid.rows) × (s.j < f.grid.across) × (at ≡ base_of f.grid s.i s.j)
        × (at + f.grid.size ≤ length work.now)
        × Earlier f.rules.now.words f.loads.now f.bound f.grid s.i s.j work.now
        × (bit_of s.top x ≡ true → United f.rules.now.words f.loads.now f.bound s.i s.j x above)
        × (bit_of s.pair x ≡ true → 0 < s.j
        → United f.rules.now.words f.loads.now f.bound s.i (s.j - 1) x diagonal) }
    ensures { let s = columns.entry in let f = s.filling in
        Holds x (cell f.rules.now.words f.loads.now f.bound s.i s.j) result }
{
    let before = if columns.j == 0 {
        0
    } else {
        read_word(work, at - columns.filling.grid.size + 4 * x)
    };
    columns.word(x, above, before, diagonal)
}

// Fills the plane of (i, j), and says whether anything stands in it.
fn fill_plane(
    work: &mut [u16],
    filling: Filling,
    i: usize,
    j: usize,
    above: &[u64; 64],
    diagonal: &[u64; 64],
) -> bool
    requires { let f = filling in
        Measures f.grid × (i ≤ 64) × (j < f.grid.across) × (base_of f.grid i j + f.grid.size ≤ length work.old)
        × Earlier f.rules.now.words f.loads.now f.bound f.grid i j work.old
        × Alone f.rules.now.words f.loads.now f.bound f.grid i j above.now
        × (0 < j → Paired f.rules.now.words f.loads.now f.bound f.grid i j diagonal.now)
        × (load_rows (i + 1) ≤ length f.loads.now) }
    ensures { let f = filling.entry in
        Filled f.rules.now.words f.loads.now f.bound f.grid i (j + 1) (base_of f.grid i (j + 1)) work.old work.new
        × (result ≡ false → Empty f.rules.now.words f.loads.now f.bound f.grid i j) }
{
    let plane = Plane {
        work,
        grid: filling.grid,
        i,
        j,
    };
    let at = plane.start();
    let columns = filling.columns(i, j);
    let mut all: u64 = 0;
    for x in 0..filling.grid.rows {
        let w = row(work, columns, at, x, above[x], diagonal[x]);
        write_word(work, at + 4 * x, w);
        all = either(w, all);
    }
    all != 0
}

// Writes the rows of an empty plane.
fn clear_plane(work: &mut [u16], filling: Filling, i: usize, j: usize)
    requires { let f = filling in
        Measures f.grid × (i ≤ 64) × (j < f.grid.across) × (base_of f.grid i j + f.grid.size ≤ length work.old)
        × Earlier f.rules.now.words f.loads.now f.bound f.grid i j work.old
        × Empty f.rules.now.words f.loads.now f.bound f.grid i j }
    ensures { let f = filling.entry in
        Filled f.rules.now.words f.loads.now f.bound f.grid i (j + 1) (base_of f.grid i (j + 1)) work.old work.new }
{
    let plane = Plane {
        work,
        grid: filling.grid,
        i,
        j,
    };
    let at = plane.start();
    for x in 0..filling.grid.rows {
        write_word(work, at + 4 * x, 0);
    }
}

// Fills the planes of i. Each flag says whether the plane of one top pin less may hold anything, and then whether that of i may: what is
// made from empty planes alone is empty, but for the plane of no pin.
fn fill_row(work: &mut [u16], filling: Filling, i: usize, flags: &mut [bool; 65])
    requires { let f = filling in
        Measures f.grid × (i ≤ 64) × ((i + 1) * f.grid.stride ≤ length work.old)
        × Earlier f.rules.now.words f.loads.now f.bound f.grid i 0 work.old
        × (load_rows (i + 1) ≤ length f.loads.now)
        × (0 < i → Told f.rules.now.words f.loads.now f.bound f.grid (i - 1) flags.old) }
    ensures { let f = filling.entry in
        Filled f.rules.now.words f.loads.now f.bound f.grid (i + 1) 0 ((i + 1) * f.grid.stride) work.old work.new
        × Told f.rules.now.words f.loads.now f.bound f.grid i flags.new }
{
    let mut above: [u64; 64] = [0; 64];
    let mut diagonal: [u64; 64] = [0; 64];
    let mut corner = false;
    let mut before = i == 0;
    for j in 0..filling.grid.across {
        let some = flags[j];
        if some || before || corner {
            unite_above(work, filling, i, j, some, &mut above);
            before = fill_plane(work, filling, i, j, &above, &diagonal);
            diagonal = above;
        } else {
            // the next plane's unions for pairs are then all 0, as those at hand are
            clear_plane(work, filling, i, j);
        }
        flags[j] = before;
        corner = some;
    }
}

// Fills the planes of 0 to p. A cell that is in no row of theirs stays as it was.
pub fn fill(work: &mut [u16], filling: Filling, p: usize)
    requires { AsksTable work.old filling.grid p × (load_rows (p + 1) ≤ length filling.loads.now) }
    ensures { let f = filling.entry in
        Filled f.rules.now.words f.loads.now f.bound f.grid (p + 1) 0 ((p + 1) * f.grid.stride) work.old work.new }
{
    let mut flags: [bool; 65] = [false; 65];
    // not `0..=p`, of which the last turn would have to be shown once more
    for i in 0..p + 1 {
        fill_row(work, filling, i, &mut flags);
    }
}
