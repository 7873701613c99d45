// The longest chain of an assignment's vertical constraints.
#![tactic(auto)]

ghost use Rattle.std.specs.Prelude.{◌≡◌, ℕ, ◌<◌, ◌≤◌, ◌&&◌, eqb, ltb, length};
ghost use Rattle.bits.specs.Bits.{bit_of};
ghost use Rattle.relation.specs.Relation.{leads_in};
ghost use Rattle.chains.specs.Chains.{constraint_at, follows, lesser, least, chain_nets};
ghost use Rattle.chains.specs.Answer.{chained_of};

use arrayvec::ArrayVec;
use bits::{bit, either, single};
use chained::{Chain, ChainRefusal, Chained};
use constraints::{Constraint, list_constraints};
use density::list_density;
use relation::{close, longest_walk};

// The longest chain of a column list: 1 to 8 of the sheet, 12, 13 and 14 of the list, then 19 where the constraints have a circle; otherwise
// how many nets it has, and the greater of that and the density.
pub fn chain(s: &[u8], columns: &[u8]) -> Chained
    ensures { result ≡ chained_of s.now columns.now }
{
    let listed = list::assignment(s, columns)?;
    let mut constraints = ArrayVec::new();
    list_constraints(listed, &mut constraints);
    let nets = chain_nets(&constraints)?;
    let bound = nets.max(list_density(listed));
    Ok(Chain { nets, bound })
}

// How many nets the longest chain has, 0 where nothing lies over anything, or the lowest net on a circle.
fn chain_nets(constraints: &[Constraint]) -> Result<u32, ChainRefusal>
    requires { length constraints.now ≤ 64 }
    ensures { result ≡ chain_nets constraints.now }
{
    let n = constraints.len();
    if n == 0 {
        return Ok(0);
    }
    let mut words: [u64; 64] = [0; 64];
    put_words(constraints, &mut words);
    let steps = longest_walk(&words, n);
    if steps < n {
        return Ok(steps as u32 + 2);
    }
    // a walk of as many steps as constraints goes round a circle
    close(&mut words, n);
    match lowest_net(constraints, &words) {
        None => Ok(steps as u32 + 2),
        Some(net) => Err(ChainRefusal::Circle(net)),
    }
}

// Puts the places of those that a constraint follows into its word.
fn put_words(constraints: &[Constraint], words: &mut [u64; 64])
    requires { length constraints.now ≤ 64 }
    ensures { (i j : ℕ) → i < length constraints.now → j < length constraints.now → leads_in words.new i j ≡ follows constraints.now i j }
{
    for j in 0..constraints.len() {
        words[j] = ending_with(constraints[j].over, constraints);
    }
}

// The places of the constraints that end with a net.
fn ending_with(net: u16, constraints: &[Constraint]) -> u64
    requires { length constraints.now ≤ 64 }
    ensures { (i : ℕ) → i < length constraints.now → bit_of result i ≡ eqb (constraint_at constraints.now i).under net }
{
    let mut places = 0;
    for i in 0..constraints.len() {
        if constraints[i].under == net {
            places = either(single(i), places);
        }
    }
    places
}

// The lowest net with which a constraint begins that is in its own word.
fn lowest_net(constraints: &[Constraint], words: &[u64; 64]) -> Option<u16>
    requires { length constraints.now ≤ 64 }
    ensures { result ≡ least (λ (i : ℕ). leads_in words.now i i) (λ (i : ℕ). (constraint_at constraints.now i).over) (length constraints.now) }
{
    let mut lowest = None;
    for i in 0..constraints.len() {
        if bit(words[i], i) {
            lowest = Some(lesser(constraints[i].over, lowest));
        }
    }
    lowest
}

// The less of a net and one that may be missing.
fn lesser(net: u16, lowest: Option<u16>) -> u16
    ensures { result ≡ lesser net lowest }
{
    match lowest {
        None => net,
        Some(other) => net.min(other),
    }
}
