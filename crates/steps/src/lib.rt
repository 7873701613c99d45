// The numbers that are reached from a set by the steps of another, and those from which it is reached.
#![tactic(auto)]

ghost use Rattle.std.specs.Prelude.{ℕ, ◌-◌, ◌≤◌, ◌<◌, ◌≡◌};
ghost use Rattle.bits.specs.Bits.{bit_of};
ghost use Rattle.steps.specs.Stepped.{stepped, stepped_back, covered, Halves, exchanged};

use bits::{below, both, from, lowest};

// The numbers that are reached from a number of w by a step of `by`. Most often `by` holds all numbers from some number on, and then so
// does what is reached.
pub fn steps(w: u64, by: u64) -> u64
    ensures { (n : ℕ) → n < 64 → bit_of result n ≡ stepped w by n }
{
    let least = lowest(by);
    if by == from(least) {
        return from(lowest(w) + least);
    }
    closed(w, by, least)
}

// The same where `by` ends: most often it is a run from `least` on. The two sets stay two parameters: a type of both would be made in
// `steps` and taken apart again here and below.
fn closed(w: u64, by: u64, least: usize) -> u64
    ensures { (n : ℕ) → n < 64 → bit_of result n ≡ stepped w by n }
{
    let end = 64 - u64::leading_zeros(by) as usize;
    if least < end && by == both(from(least), below(end)) {
        return spread(w, end - least) << least;
    }
    one_by_one(w, by)
}

// The numbers of w and those less than `width` above one, twice as many with each turn.
fn spread(w: u64, width: usize) -> u64
    requires { (0 < width) × (width ≤ 64) }
    ensures { (n : ℕ) → n < 64 → bit_of result n ≡ covered w width n }
{
    let mut found = w;
    let mut done: usize = 1;
    // no `for`: each turn doubles how far it has come
    while done + done <= width {
        found = found | (found << done);
        done = done + done;
    }
    found | (found << (width - done))
}

// The steps of any `by`.
fn one_by_one(w: u64, by: u64) -> u64
    ensures { (n : ℕ) → n < 64 → bit_of result n ≡ stepped w by n }
{
    let mut moved = w;
    let mut left = by;
    let mut found: u64 = 0;
    // no `for`: it ends with the last step, long before 64 turns
    while left != 0 {
        if left % 2 == 1 {
            found = found | moved;
        }
        moved = moved << 1;
        left = left / 2;
    }
    found
}

// The numbers from which a number of w is reached by a step of `by`: `steps` from the other end, but where `by` has no end.
pub fn steps_back(w: u64, by: u64) -> u64
    ensures { (n : ℕ) → n < 64 → bit_of result n ≡ stepped_back w by n }
{
    let first = lowest(by);
    if by == from(first) {
        let end = 64 - u64::leading_zeros(w) as usize;
        return below(end.saturating_sub(first));
    }
    reversed(steps(reversed(w), by))
}

// The numbers of w counted from the other end: halves, quarters and so on change places.
pub fn reversed(w: u64) -> u64
    ensures { (n : ℕ) → n < 64 → bit_of result n ≡ bit_of w (63 - n) }
{
    let w = exchange(w, 1, 0x5555555555555555);
    let w = exchange(w, 2, 0x3333333333333333);
    let w = exchange(w, 4, 0x0f0f0f0f0f0f0f0f);
    let w = exchange(w, 8, 0x00ff00ff00ff00ff);
    let w = exchange(w, 16, 0x0000ffff0000ffff);
    exchange(w, 32, 0x00000000ffffffff)
}

// The numbers of `low` change places with those `by` above them.
fn exchange(w: u64, by: usize, low: u64) -> u64
    requires { (by < 64) × Halves by low }
    ensures { (n : ℕ) → n < 64 → bit_of result n ≡ bit_of w (exchanged by low n) }
{
    ((w >> by) & low) | ((w & low) << by)
}
