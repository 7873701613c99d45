// How many nets are cut between the pins at or left of a column and the others, and the loads of a column from the cut right of it.
#![tactic(auto)]

ghost use Rattle.std.specs.Prelude.{◌≡◌, ◌+◌, ◌-◌, ◌≤◌, cond, not, ◌&&◌, eqb, leb, ltb, length};
ghost use Rattle.kind.specs.Kinds.{kind_of, leaves_left};
ghost use Rattle.channel.specs.Density.{weight, weight_of, distinct};
ghost use Rattle.cut.specs.Counts.{ends_here};

use arrays::Loads;
use kind::Kind;
use nets::occurs;
use places::PinPlaces;

// Whether a net comes in at the left end of the channel.
fn comes_in(net: u16) -> bool
    ensures { result ≡ leaves_left (kind_of net) }
{
    Kind::from(net).left_start() == 0
}

// The nets that are cut left of all pins: those that come in at the left end, each once.
pub fn first_cut(nets: &[u16]) -> u8
    requires { length nets.now ≤ 128 }
    ensures { result ≡ weight_of (λ n. leaves_left (kind_of n)) (distinct nets.now) }
{
    let mut count = 0;
    for (i, net) in nets.iter().enumerate() {
        if comes_in(*net) && !occurs(*net, &nets[i + 1..]) {
            count += 1;
        }
    }
    count
}

// The cut with a pin more, where `across` pins of the other side are at or left of it: it opens its net, or closes it, or neither.
pub fn next_cut(cut: u8, pin: PinPlaces, across: u8) -> u8
    requires { (cut ≤ 128) × (cond (leb pin.opens across) 1 0 ≤ cut + cond (ltb across pin.closes) 1 0) }
    ensures { result + cond (leb pin.opens across) 1 0 ≡ cut + cond (ltb across pin.closes) 1 0 }
{
    cut + u8::from(across < pin.closes) - u8::from(pin.opens <= across)
}

// Whether a pin's net counts in the pin's column and not right of it, where `before` pins of the other side are left of the column and
// `behind` at or left of it.
fn ends_here(pin: PinPlaces, before: u8, behind: u8) -> bool
    ensures { result ≡ ends_here pin before behind }
{
    (pin.straight | (pin.opens <= before)) & (pin.closes <= behind)
}

// The load of a column with this pin alone, from the cut right of it.
pub fn lone_load(cut: u8, pin: PinPlaces, across: u8) -> u8
    requires { cut ≤ 128 }
    ensures { result ≡ cut + cond (ends_here pin across across) (weight pin.net) 0 }
{
    cut + u8::from(ends_here(pin, across, across))
}

// The load of a column with both pins, the i-th of the top side and the j-th of the bottom side: their net counts once where it is one.
fn pair_load(cut: u8, top: PinPlaces, bottom: PinPlaces, i: u8, j: u8) -> u8
    requires { (cut ≤ 128) × (1 ≤ i) × (1 ≤ j) }
    ensures { result ≡ cut + (cond (ends_here top (j - 1) j) (weight top.net) 0
        + cond (not (eqb bottom.net top.net) && ends_here bottom (i - 1) i) (weight bottom.net) 0) }
{
    let other = (bottom.net != top.net) & ends_here(bottom, i - 1, i);
    cut + (u8::from(ends_here(top, j - 1, j)) + u8::from(other))
}

// The three loads of the columns with the i-th top pin, the j-th bottom pin or both as their last, from the cut right of them.
pub fn loads_of(cut: u8, top: PinPlaces, bottom: PinPlaces, i: u8, j: u8) -> Loads
    requires { (cut ≤ 128) × (1 ≤ i) × (1 ≤ j) }
    ensures top { result.top ≡ cut + cond (ends_here top j j) (weight top.net) 0 }
    ensures bottom { result.bottom ≡ cut + cond (ends_here bottom i i) (weight bottom.net) 0 }
    ensures both { result.both ≡ cut + (cond (ends_here top (j - 1) j) (weight top.net) 0
        + cond (not (eqb bottom.net top.net) && ends_here bottom (i - 1) i) (weight bottom.net) 0) }
{
    Loads {
        top: lone_load(cut, top, j),
        bottom: lone_load(cut, bottom, i),
        both: pair_load(cut, top, bottom, i, j),
    }
}
