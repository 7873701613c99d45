// The nets of a sheet's terminals.
#![tactic(auto)]

ghost use Rattle.std.specs.Prelude.{◌≡◌, ◌≤◌, ◌++◌, eqb, length};
ghost use Rattle.channel.specs.Density.{any, pin_count, straight};
ghost use Rattle.channel.specs.Sheet.{nets as nets_of};
ghost use Rattle.format.specs.Parts.{terminals_in};

use format::Terminals;
use mark::Mark;

// The nets of a sheet's terminals that are still to come, top then bottom.
#[derive(Clone, Copy)]
pub struct Nets<'a> {
    top: Terminals<'a>,
    bottom: Terminals<'a>,
}

impl<'a> Nets<'a> {
    ghost use Rattle.nets.specs.Left.{nets_to_come};

    // The nets of all terminals of two sections.
    pub fn new(top: &'a [u8], bottom: &'a [u8]) -> Self
        ensures { nets_to_come result ≡ nets_of (terminals_in top.now ++ terminals_in bottom.now) }
    {
        Nets {
            top: Terminals::new(top),
            bottom: Terminals::new(bottom),
        }
    }
}

impl<'a> Iterator for Nets<'a> {
    ghost use Rattle.std.specs.Iterator.{YieldsFirst, item_count};
    ghost use Rattle.nets.specs.Left.{nets_to_come};

    type Item = u16;

    ghost next_gives = { YieldsFirst nets_to_come };

    ghost remaining = { item_count nets_to_come };

    fn next(&mut self) -> Option<u16> {
        match self.top.next() {
            Some(record) => Some(record.net),
            None => Some(self.bottom.next()?.net),
        }
    }
}

// Whether a net occurs. The fold has no branch, so that the compiler can take many pins at a time: with std's `contains` the nets of 128
// pins, each once, take 0.9 to 1.8 of the time, the more the more nets there are, and those of 10 pins 0.8 to 1 (in plain Rust).
pub fn occurs(net: u16, nets: &[u16]) -> bool
    ensures { result ≡ any (eqb net) nets.now }
{
    nets.iter()
        .fold(false, |found, other| found | (net == *other))
}

// How many pins a net has, by the nets of all pins. The loop has no branch, so that the compiler can take many pins at a time.
pub fn count_pins(net: u16, nets: &[u16]) -> u16
    requires { length nets.now ≤ 128 }
    ensures { result ≡ pin_count net nets.now }
{
    let mut count = 0;
    for other in nets {
        count += u16::from(*other == net);
    }
    count
}

// Whether a net counts in a column that has both its pins: such wires count on a sheet of this mark, and it has two pins.
pub fn is_straight(mark: Mark, net: u16, nets: &[u16]) -> bool
    requires { length nets.now ≤ 128 }
    ensures { result ≡ straight mark nets.now net }
{
    mark.counts_straight() && count_pins(net, nets) == 2
}

// The nets of a list that are still to come: each once, where it occurs last.
#[derive(Clone, Copy)]
pub struct Distinct<'a> {
    pub left: &'a [u16],
}

impl<'a> Iterator for Distinct<'a> {
    ghost use Rattle.std.specs.Iterator.{YieldsFirst, item_count};
    ghost use Rattle.nets.specs.Distinct.{nets_left};

    type Item = u16;

    ghost next_gives = { YieldsFirst nets_left };

    ghost remaining = { item_count nets_left };

    fn next(&mut self) -> Option<u16> {
        // no `for`: what is left stays in the iterator
        while let Some((net, rest)) = self.left.split_first() {
            self.left = rest;
            if !occurs(*net, rest) {
                return Some(*net);
            }
        }
        None
    }
}
