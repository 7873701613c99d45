// A bound that no placing of all pins gets below, from the loads alone.
#![tactic(auto)]

ghost use Rattle.std.specs.Prelude.{ℕ, ◌+◌, ◌-◌, ◌≤◌, ◌<◌, min, max, ◌≡◌, length, get_or};
ghost use Rattle.arrays.specs.Rules.{pins};
ghost use Rattle.arrays.specs.Loads.{load_rows};
ghost use Rattle.bound.specs.LowerBound.{lowest as lowestOf, lower_bound};

use arrays::loads_at;

// The lower bound of i top and j bottom pins, from those of one top pin less, one bottom pin less, and one of each less. The bounds of i
// and j stay clauses, here and below, as `arrays` says.
#[tactic(auto, unfolding(crate::specs::LowerBound::lowest))]
fn lowest(loads: &[u8], i: usize, j: usize, above: u8, before: u8, diagonal: u8) -> u8
    requires { (load_rows (i + 1) ≤ length loads.now) × (j ≤ pins) }
    ensures { result ≡ lowestOf loads.now i j above before diagonal }
{
    let here = loads_at(loads, i, j);
    let top = above.max(here.top);
    let bottom = before.max(here.bottom);
    let both = diagonal.max(here.both);
    match (i, j) {
        (0, 0) => 0,
        (0, _) => bottom,
        (_, 0) => top,
        _ => top.min(bottom.min(both)),
    }
}

// Makes the row of one top pin less, from no bottom pin on, the row of i.
fn next_row(loads: &[u8], i: usize, row: &mut [u8])
    requires { (load_rows (i + 1) ≤ length loads.now) × (length row.old ≤ pins + 1)
        × (0 < i → (j : ℕ) → j < length row.old → get_or row.old j 0 ≡ lower_bound loads.now (i - 1) j) }
    ensures { (j : ℕ) → j < length row.old → get_or row.new j 0 ≡ lower_bound loads.now i j }
{
    let mut before: u8 = 0;
    let mut diagonal: u8 = 0;
    for (j, least) in row.iter_mut().enumerate() {
        let above = *least;
        before = lowest(loads, i, j, above, before, diagonal);
        *least = before;
        diagonal = above;
    }
}

// The lower bound of p top and q bottom pins.
pub fn lower_bound(loads: &[u8], p: usize, q: usize) -> u8
    requires { (load_rows (p + 1) ≤ length loads.now) × (q ≤ pins) }
    ensures { result ≡ lower_bound loads.now p q }
{
    let mut rows = [0u8; 65];
    let row = &mut rows[..q + 1];
    for i in 0..=p {
        next_row(loads, i, row);
    }
    row[q]
}
