// The lists that are assignments, and the best of them.
use crate::lists::{count_lists, list_of};
use crate::{List, Pins, Sheet};
use terminal::Record;

// The best assignment: its density, its word, and whether another one has this density.
#[derive(Clone, Copy)]
pub struct Best {
    pub list: List,
    pub density: usize,
    pub word: u128,
    pub tied: bool,
}

impl Best {
    // A list that is the only one so far.
    fn new(sheet: &Sheet, list: List) -> Best {
        let pins = Pins { sheet, list: &list };
        Best {
            list,
            density: pins.density(),
            word: pins.word(),
            tied: false,
        }
    }

    // The better of two: less density, or the same and the smaller word.
    fn or(self, other: Best) -> Best {
        let mut best = if (other.density, other.word) < (self.density, self.word) {
            other
        } else {
            self
        };
        best.tied |= self.density == other.density;
        best
    }
}

impl Pins<'_> {
    // The amount of the first distance that is out of range, top pairs before bottom pairs.
    pub fn first_amount(self) -> Option<i16> {
        let Pins { sheet, list } = self;
        let top = sheet.top as usize;
        let columns = list.iter().zip(list.iter().skip(1));
        let pins = sheet.terminals().iter().enumerate().skip(1).zip(columns);
        let mut later = pins.filter(|((t, _), _)| *t != top);
        later.find_map(|((_, terminal), (before, here))| amount(*before, *here, terminal))
    }
}

// The columns by which a terminal's distance is out of range: negative before the first column in range, which is tried first,
// positive behind the last.
fn amount(before: u8, here: u8, terminal: &Record) -> Option<i16> {
    let first = before as i16 + terminal.least as i16;
    let last = before as i16 + terminal.greatest as i16;
    let column = here as i16;
    if column < first {
        Some(column - first)
    } else if last < column {
        Some(column - last)
    } else {
        None
    }
}

// The best assignment, if there is any.
pub fn find_best(sheet: &Sheet) -> Option<Best> {
    (0..count_lists(sheet))
        .map(|number| list_of(number, sheet))
        .filter(|list| Pins { sheet, list }.first_amount().is_none())
        .map(|list| Best::new(sheet, list))
        .reduce(|best, other| best.or(other))
}
