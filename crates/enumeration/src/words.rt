// The word of a list, as a number whose digits to the base 4 are its letters, that of column 1 the lowest.
use crate::Pins;

impl Pins<'_> {
    // The letter of a column is 1 for a top pin and 2 for a bottom pin, added up.
    pub fn word(self) -> u128 {
        let Pins { sheet, list } = self;
        let mut word = 0;
        for (t, column) in list.iter().take(sheet.pins()).enumerate() {
            let letter = if t < sheet.top as usize { 1u128 } else { 2 };
            if matches!(*column, 1..=64) {
                word |= letter << (2 * (*column - 1));
            }
        }
        word
    }
}
