// Where the net of a pin has its other pins: what a pin changes in the number of nets that are cut, by two numbers.
#![tactic(auto)]

ghost use Rattle.std.specs.Prelude.{◌≡◌, ◌≤◌, ◌<◌, length};
ghost use Rattle.channel.specs.Density.{straight};
ghost use Rattle.places.specs.Places.{EndsOf, Numbers, ListedPins};

use arrayvec::ArrayVec;
use kind::Kind;
use mark::Mark;
use nets::{is_straight, occurs};

// The first and last place of a net on one side, from 1. A net that leaves at the left has first 0, one that leaves at the right last 255;
// any other has 255 and 0 where it has no pin on the side.
#[derive(Clone, Copy)]
pub struct Ends {
    pub first: u8,
    pub last: u8,
}

// A pin's net, and where else that net is. With n pins of the other side at or left of the pin, it has come before the pin if opens ≤ n, and
// goes on behind it if n < closes. Whether it is a straight wire that counts where its two pins share a column.
#[derive(Clone, Copy, Default)]
pub struct PinPlaces {
    pub net: u16,
    pub opens: u8,
    pub closes: u8,
    pub straight: bool,
}

// The ends of a net on one side. The loop has no branch, so that the compiler can take many pins at a time.
fn ends_of(side: &[u16], net: u16) -> Ends
    requires { length side.now ≤ 64 }
    ensures { EndsOf net side.now result.first result.last }
{
    let kind = Kind::from(net);
    let mut first = kind.left_start();
    let mut last = kind.right_start();
    for (i, other) in side.iter().enumerate() {
        let place = i as u8 + 1;
        // a pin of another net moves neither end
        let (low, high) = if *other == net {
            (place, place)
        } else {
            (255, 0)
        };
        first = first.min(low);
        last = last.max(high);
    }
    Ends { first, last }
}

// The numbers of the pin at index i of its own side, on a sheet with this mark and these nets of both sides.
fn pin_at(mark: Mark, nets: &[u16], own: &[u16], other: &[u16], i: usize) -> PinPlaces
    requires { (length nets.now ≤ 128) × (length other.now ≤ 64) × (i < length own.now) }
    ensures { Numbers (straight mark nets.now) own.now other.now i result }
{
    let net = own[i];
    let ends = ends_of(other, net);
    let before = occurs(net, &own[..i]);
    let behind = occurs(net, &own[i + 1..]);
    PinPlaces {
        net,
        opens: if before { 0 } else { ends.first },
        closes: if behind { 255 } else { ends.last },
        straight: is_straight(mark, net, nets),
    }
}

// The numbers of the pins of a side.
pub fn list_pins(mark: Mark, nets: &[u16], own: &[u16], other: &[u16]) -> ArrayVec<PinPlaces, 64>
    requires { (length nets.now ≤ 128) × (length own.now ≤ 64) × (length other.now ≤ 64) }
    ensures { ListedPins (straight mark nets.now) own.now other.now result.items }
{
    let mut pins = ArrayVec::new();
    for i in 0..own.len() {
        pins.push(pin_at(mark, nets, own, other, i));
    }
    pins
}
