// The pins of a column list, and how far each net reaches in it.
#![tactic(auto)]

ghost use Rattle.std.specs.Prelude.{◌≡◌, ◌≤◌, ◌++◌, length};
ghost use Rattle.channel.specs.Sheet.{nets as nets_of};
ghost use Rattle.format.specs.Parts.{terminals_in};

use arrayvec::ArrayVec;
use kind::Kind;
use mark::Mark;
use nets::{Nets, is_straight};

// The columns of a net's leftmost and rightmost pins; 0 and 255 where it leaves by that end.
#[derive(Clone, Copy)]
pub struct Ends {
    pub left: u8,
    pub right: u8,
}

// The pins of a column list: the mark of their sheet, and the net and the column of each. That they are at most 128 is asked where it is
// needed, as `ends_of` takes any number.
#[derive(Clone, Copy)]
pub struct PinList<'a> {
    pub mark: Mark,
    pub nets: &'a [u16],
    pub columns: &'a [u8],
    ghost paired: { length nets.now ≡ length columns.now },
}

impl<'a> PinList<'a> {
    ghost use Rattle.channel.specs.Density.{straight};
    ghost use Rattle.channel.specs.Spans.{counts};
    ghost use Rattle.ends.specs.Ends.{ends_of};
    ghost use Rattle.ends.specs.Pins.{pins_in};

    // How far a net reaches. The loop has no branch, so that the compiler can take many pins at a time; over a `zip` it takes a fifth
    // more instructions.
    pub fn ends_of(self, net: u16) -> Ends
        ensures { result ≡ ends_of net (pins_in self.entry) }
    {
        let kind = Kind::from(net);
        let mut left = kind.left_start();
        let mut right = kind.right_start();
        for i in 0..self.nets.len() {
            let own = self.nets[i] == net;
            let column = self.columns[i];
            // a pin of another net moves neither end
            left = left.min(if own { column } else { 255 });
            right = right.max(if own { column } else { 0 });
        }
        Ends { left, right }
    }

    // Whether a net with these ends crosses any column: they differ, or it is a straight wire that counts.
    pub fn counts(self, net: u16, ends: Ends) -> bool
        requires { length self.nets.now ≤ 128 }
        ensures { result ≡ counts (straight self.entry.mark self.entry.nets.now net) ends.left ends.right }
    {
        ends.left < ends.right
            || (ends.left == ends.right && is_straight(self.mark, net, self.nets))
    }
}

// Lists the nets of the terminals of two sections, top then bottom.
pub fn list_nets(top: &[u8], bottom: &[u8], nets: &mut ArrayVec<u16, 128>)
    requires { length (terminals_in top.now ++ terminals_in bottom.now) ≤ 128 }
    ensures { nets.new.items ≡ nets_of (terminals_in top.now ++ terminals_in bottom.now) }
{
    nets.clear();
    for net in Nets::new(top, bottom) {
        nets.push(net);
    }
}
