// What 13 and 14 ask of a list as long as the terminals.
ghost use Rattle.std.specs.Prelude.{◌≡◌, length};
ghost use Rattle.format.specs.Parts.{terminals_in};
ghost use Rattle.terminal.specs.Amount.{out_of_range};
ghost use Rattle.list.specs.Answer.{side_allowed, first_of, side_amount};

use format::Terminals;

// A side of a list: the section and the columns of its terminals.
#[derive(Clone, Copy)]
pub struct ListedSide<'a> {
    pub part: &'a [u8],
    pub columns: &'a [u8],
    ghost paired: { length columns.now ≡ length (terminals_in part.now) },
}

impl<'a> ListedSide<'a> {
    // 13: whether each column is in its terminal's set.
    pub fn is_allowed(self) -> bool
        ensures { result ≡ side_allowed (terminals_in self.entry.part.now) self.entry.columns.now }
    {
        for (r, column) in Terminals::new(self.part).zip(self.columns) {
            if !terminal::allows(r.allowed, *column) {
                return false;
            }
        }
        true
    }

    // 14: the amount of the first distance that is out of range.
    fn amount(self) -> Option<i16>
        ensures { result ≡ out_of_range (side_amount (terminals_in self.entry.part.now) self.entry.columns.now) }
    {
        let mut pins = Terminals::new(self.part).zip(self.columns);
        // nothing ties the first
        let mut before = *pins.next()?.1;
        for (r, column) in pins {
            if let Some(amount) = terminal::amount(before, *column, r.least, r.greatest) {
                return Some(amount);
            }
            before = *column;
        }
        None
    }
}

// 14: the amount of the first distance that is out of range, top pairs before bottom pairs.
pub fn first_amount(top: ListedSide, bottom: ListedSide) -> Option<i16>
    ensures { result ≡ out_of_range (first_of (side_amount (terminals_in top.entry.part.now) top.entry.columns.now)
        (side_amount (terminals_in bottom.entry.part.now) bottom.entry.columns.now)) }
{
    match top.amount() {
        None => bottom.amount(),
        found => found,
    }
}
