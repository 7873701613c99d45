// The vertical constraints of a list: which net lies over which.
use crate::Pins;
use crate::crossings::leaves;

impl Pins<'_> {
    // Whether a net lies over another: some column has a pin of it on top and one of the other below, and neither is a plain net with one
    // pin.
    pub fn lies_over(self, upper: u16, lower: u16) -> bool {
        upper != lower
            && !self.is_left_out(upper)
            && !self.is_left_out(lower)
            && self.is_above(upper, lower)
    }

    // Whether a net is a plain one with one pin.
    pub fn is_left_out(self, net: u16) -> bool {
        !leaves(net).any() && self.sheet.count_pins(net) == 1
    }

    // Whether some column has a pin of one net on top and one of the other below: each top pin is held against each bottom pin.
    pub fn is_above(self, upper: u16, lower: u16) -> bool {
        let pins = self.sheet.terminals().iter().zip(self.list);
        let mut tops = pins.take(self.sheet.top as usize);
        tops.any(|(terminal, column)| terminal.net == upper && self.has_below(lower, *column))
    }

    // Whether a net has a bottom pin in a column.
    fn has_below(self, net: u16, c: u8) -> bool {
        let pins = self.sheet.terminals().iter().zip(self.list);
        let mut bottoms = pins.skip(self.sheet.top as usize);
        bottoms.any(|(terminal, column)| terminal.net == net && *column == c)
    }
}
