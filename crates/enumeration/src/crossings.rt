// The density of a list: the most nets that cross a column.
use crate::Pins;
use mark::Mark;

// By which ends of the channel a net leaves.
#[derive(Clone, Copy, Debug, Default, PartialEq, Eq)]
pub struct Ends {
    pub left: bool,
    pub right: bool,
}

impl Ends {
    // Whether there is such an end.
    pub fn any(self) -> bool {
        self.left || self.right
    }
}

pub fn leaves(net: u16) -> Ends {
    Ends {
        left: matches!(net, 60001..=62000 | 64001..),
        right: 62000 < net,
    }
}

impl Pins<'_> {
    // Whether a net crosses column c: a pin at or left of c, one at or right of it, and one that is not in it. A net that leaves has a
    // pin beyond the end. A straight wire that counts needs no pin beside c.
    pub fn crosses(self, net: u16, c: u8) -> bool {
        let ends = leaves(net);
        let mut left = ends.left;
        let mut right = ends.right;
        let mut beside = ends.any();
        for (terminal, column) in self.sheet.terminals().iter().zip(self.list) {
            if terminal.net == net {
                left |= *column <= c;
                right |= c <= *column;
                beside |= *column != c;
            }
        }
        left && right && (beside || self.is_straight_in(net, c))
    }

    // Whether a net is a straight wire that counts in column c: the sheet's mark is CQ, and the net is plain and has two pins, both in c.
    fn is_straight_in(self, net: u16, c: u8) -> bool {
        self.sheet.mark == Mark::Cq
            && !leaves(net).any()
            && self.sheet.count_pins(net) == 2
            && self.count_pins_in(net, c) == 2
    }

    // How many pins a net has in a column.
    fn count_pins_in(self, net: u16, c: u8) -> usize {
        let pins = self.sheet.terminals().iter().zip(self.list);
        let inside = pins.filter(|(terminal, column)| terminal.net == net && **column == c);
        inside.count()
    }

    // Whether some net is a straight wire that counts.
    pub fn have_straight_wire(self) -> bool {
        let nets = self.sheet.nets();
        (1..=self.sheet.columns).any(|c| nets.iter().any(|net| self.is_straight_in(*net, c)))
    }

    pub fn density(self) -> usize {
        let nets = self.sheet.nets();
        (1..=self.sheet.columns)
            .map(|c| nets.iter().filter(|net| self.crosses(**net, c)).count())
            .max()
            .unwrap_or(0)
    }
}
