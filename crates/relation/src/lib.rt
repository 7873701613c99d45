// A relation between numbers below 64, as a table of words: what is reached, and how many steps the longest walk has.
#![tactic(auto)]

ghost use Rattle.std.specs.Prelude.{ℕ, ◌≤◌, ◌<◌, ◌≡◌, ◌&&◌, ◌||◌};
ghost use Rattle.bits.specs.Bits.{bit_of, in_word};
ghost use Rattle.relation.specs.Relation.{leads_in, reaches, longest};

use bits::{below, bit, both, either, from, lowest};

// How many steps the longest walk of numbers below n has; n where one has as many, and then there is a circle.
pub fn longest_walk(words: &[u64; 64], n: usize) -> usize
    requires { n ≤ 64 }
    ensures { result ≡ longest (leads_in words.now) n n }
{
    let all = below(n);
    // where walks of so many steps start
    let mut starts = all;
    for steps in 0..n {
        let fewer = both(all, before(words, starts));
        if fewer == 0 {
            return steps;
        }
        if fewer == starts {
            // walks of any length start there
            return n;
        }
        starts = fewer;
    }
    n
}

// The numbers that lead to one of a set.
fn before(words: &[u64; 64], set: u64) -> u64
    ensures { (a : ℕ) → bit_of result a ≡ in_word (λ (b : ℕ). leads_in words.now a b && bit_of set b) }
{
    let mut found = 0;
    let mut next = 0;
    // no `for`: it goes from one number of the set to the next
    while next < 64 {
        let b = lowest(both(set, from(next)));
        if b == 64 {
            return found;
        }
        found = either(words[b], found);
        next = b + 1;
    }
    found
}

// Makes of the numbers that lead to b those from which it is reached through numbers below n, for each b.
pub fn close(words: &mut [u64; 64], n: usize)
    requires { n ≤ 64 }
    ensures { (a b : ℕ) → b < 64 → leads_in words.new a b ≡ reaches (leads_in words.old) n a b }
{
    for k in 0..n {
        let through = words[k];
        pass_through(k, through, words);
    }
}

// Adds the numbers that lead to k to each word that holds k.
fn pass_through(k: usize, through: u64, words: &mut [u64; 64])
    ensures { (a b : ℕ) → b < 64
        → leads_in words.new a b ≡ (leads_in words.old a b || (bit_of through a && leads_in words.old k b)) }
{
    for word in words {
        *word = joined(k, through, *word);
    }
}

// A word, with the numbers that lead to k where it holds k. Without a branch the compiler can take several words at a time.
fn joined(k: usize, through: u64, word: u64) -> u64
    ensures { (a : ℕ) → bit_of result a ≡ (bit_of word a || (bit_of through a && bit_of word k)) }
{
    let more = if bit(word, k) { through } else { 0 };
    either(word, more)
}
