// Sets of numbers below 64 as words.
#![tactic(auto)]

ghost use Rattle.std.specs.Prelude.{ℕ, ◌≤◌, ◌<◌, ◌≡◌, true, false, ◌&&◌, ◌||◌, leb, ltb, eqb};
ghost use Rattle.bits.specs.Bits.{bit_of};

// Whether k is in the set.
pub fn bit(w: u64, k: usize) -> bool
    ensures { result ≡ bit_of w k }
{
    if 64 <= k {
        return false;
    }
    (w >> k) % 2 == 1
}

// The set of k alone.
pub fn single(k: usize) -> u64
    requires { k < 64 }
    ensures { (n : ℕ) → n < 64 → bit_of result n ≡ eqb n k }
{
    1u64 << k
}

// The numbers below k.
pub fn below(k: usize) -> u64
    ensures { (n : ℕ) → n < 64 → bit_of result n ≡ ltb n k }
{
    if k == 0 {
        return 0;
    }
    if 64 <= k {
        return u64::MAX;
    }
    u64::MAX >> (64 - k)
}

// The numbers from k on.
pub fn from(k: usize) -> u64
    ensures { (n : ℕ) → n < 64 → bit_of result n ≡ leb k n }
{
    if 64 <= k {
        return 0;
    }
    (u64::MAX >> k) << k
}

// What both sets hold, and what either does.
pub fn both(a: u64, b: u64) -> u64
    ensures { (n : ℕ) → bit_of result n ≡ (bit_of a n && bit_of b n) }
{
    a & b
}

pub fn either(a: u64, b: u64) -> u64
    ensures { (n : ℕ) → bit_of result n ≡ (bit_of a n || bit_of b n) }
{
    a | b
}

// The lowest number of the set; 64 where it holds none, as an option would become at each call.
pub fn lowest(w: u64) -> usize
    ensures { (result ≤ 64) × (result < 64 → bit_of w result ≡ true) × ((n : ℕ) → n < result → bit_of w n ≡ false) }
{
    w.trailing_zeros() as usize
}
