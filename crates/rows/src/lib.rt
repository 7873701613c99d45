// The rows of a plane of the table: each is a word, in four cells.
#![tactic(auto)]

ghost use Rattle.std.specs.Prelude.{ℕ, suc, ◌+◌, ◌-◌, ◌*◌, ◌≤◌, ◌<◌, ◌≡◌, false, ◌&&◌, ◌||◌, length, get_or, replicate, leb};
ghost use Rattle.channel.specs.Below.{any_below};
ghost use Rattle.bits.specs.Bits.{bit_of};
ghost use Rattle.cells.specs.Cells.{word_at};
ghost use Rattle.rows.specs.Held.{held};

use bits::{below, bit, both, either, from, lowest};
use cells::read_word;

// Of each of the first rows of the plane at `base` puts in the union of the rows up to it that are a step of `by` before it. Most often `by`
// holds all steps from some step on, as far as the plane goes. The unions are put into an array of the caller's, since a result of this size
// would be copied on its way; behind the rows it is zero.
pub fn unite(work: &[u16], base: usize, count: usize, by: u64, unions: &mut [u64; 64])
    requires { (base + 4 * count ≤ length work.now) × (count ≤ 64) }
    ensures { ((x y : ℕ) → x < count
        → bit_of (get_or unions.new x 0) y ≡ any_below (suc x) (λ (n : ℕ). bit_of by (x - n) && held work.now base n y))
        × ((x : ℕ) → count ≤ x → x < 64 → get_or unions.new x 0 ≡ 0) }
{
    let rows = read_rows(work, base, count);
    *unions = [0; 64];
    let least = lowest(by);
    let inside = below(count);
    if both(by, inside) == both(from(least), inside) {
        all_before(&rows, count, least, unions);
        return;
    }
    step_by_step(&rows, count, by, least, unions);
}

// The rows, out of their cells.
fn read_rows(work: &[u16], base: usize, count: usize) -> [u64; 64]
    requires { (base + 4 * count ≤ length work.now) × (count ≤ 64) }
    ensures { (n : ℕ) → n < count → get_or result n 0 ≡ word_at work.now (base + 4 * n) }
{
    let mut rows: [u64; 64] = [0; 64];
    for x in 0..count {
        rows[x] = read_word(work, base + 4 * x);
    }
    rows
}

// The unions by all steps from `least` on.
fn all_before(rows: &[u64; 64], count: usize, least: usize, unions: &mut [u64; 64])
    requires { (count ≤ 64) × (least ≤ 64) × (unions.old ≡ replicate 64 0) }
    ensures { ((x y : ℕ) → x < count
        → bit_of (get_or unions.new x 0) y ≡ any_below (suc x - least) (λ (n : ℕ). bit_of (get_or rows.now n 0) y))
        × ((x : ℕ) → count ≤ x → x < 64 → get_or unions.new x 0 ≡ 0) }
{
    let mut found: u64 = 0;
    for x in least..count {
        found = either(rows[x - least], found);
        unions[x] = found;
    }
}

// The unions by the steps of `by`, of which `least` is the first.
fn step_by_step(rows: &[u64; 64], count: usize, by: u64, least: usize, unions: &mut [u64; 64])
    requires { (count ≤ 64) × ((n : ℕ) → n < least → bit_of by n ≡ false) × (unions.old ≡ replicate 64 0) }
    ensures { ((x y : ℕ) → x < count
        → bit_of (get_or unions.new x 0) y ≡ any_below (suc x) (λ (n : ℕ). bit_of by (x - n) && bit_of (get_or rows.now n 0) y))
        × ((x : ℕ) → count ≤ x → x < 64 → get_or unions.new x 0 ≡ 0) }
{
    let end = 64 - u64::leading_zeros(by) as usize;
    for s in least..end.min(count) {
        if bit(by, s) {
            add_step(unions, rows, count, s);
        }
    }
}

// Adds to each row's union the row that is s before it.
fn add_step(unions: &mut [u64; 64], rows: &[u64; 64], count: usize, s: usize)
    requires { count ≤ 64 }
    ensures { ((x y : ℕ) → x < count
        → bit_of (get_or unions.new x 0) y ≡ ((leb s x && bit_of (get_or rows.now (x - s) 0) y) || bit_of (get_or unions.old x 0) y))
        × ((x : ℕ) → count ≤ x → get_or unions.new x 0 ≡ get_or unions.old x 0) }
{
    for x in s..count {
        unions[x] = either(rows[x - s], unions[x]);
    }
}
