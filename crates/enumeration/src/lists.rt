// The lists of one allowed column for each terminal, by number.
use crate::{List, ROOM, Sheet};

// How many lists of allowed columns a sheet has. No sheet whose lists are counted has more than 65,536.
pub fn count_lists(sheet: &Sheet) -> u64 {
    sheet.terminals().iter().fold(1u64, |lists, terminal| {
        lists.saturating_mul(terminal.allowed.count_ones() as u64)
    })
}

// Column number k of a set, from 0, and 64 where it has no more than k: a list has a column for each terminal, so that an option would
// become this 64 at each call.
pub fn column(set: u64, k: u64) -> u8 {
    let mut rest = set;
    for _ in 0..k {
        // without its lowest column
        rest &= rest.wrapping_sub(1);
    }
    (rest.trailing_zeros() as u8 + 1).min(64)
}

// The list of this number: its digits, to the bases of the sets' sizes, say which column of each set is taken. The empty set counts
// as one of size 1.
pub fn list_of(number: u64, sheet: &Sheet) -> List {
    let mut list = [0; ROOM];
    let mut rest = number;
    for (place, terminal) in list.iter_mut().zip(sheet.terminals()) {
        let n = terminal.allowed.count_ones().max(1) as u64;
        *place = column(terminal.allowed, rest % n);
        rest /= n;
    }
    list
}
