// The lists that are tried on a sheet: drawn so that assignments of a program's choice are frequent and every refusal occurs.
ghost use Rattle.std.specs.Prelude.{◌≤◌};

use crate::draws::{bits, draw};
use crate::sheets::single;
use enumeration::{List, ROOM, Sheet, column, list_of};
use fixtures::{Lent, full_set};
use std::ops::RangeInclusive;
use terminal::Record;

// In which of the columns in range pins stand, where there are such.
#[derive(Clone, Copy, Debug, PartialEq, Eq)]
pub enum Choice {
    Any,
    // those without a pin of another net
    Alone,
    // those with one
    Facing,
}

// What kind of list is tried.
#[derive(Clone, Copy, Debug, PartialEq, Eq)]
pub enum Kind {
    // drawn columns that are allowed
    Allowed,
    // pins in range, one behind the other, where they may stand on pins of other nets
    InRange,
    // pins in range by the program's choice
    Chosen,
    // such a list with one column changed, without its last one if it has any, and on the sheet without its last byte
    Changed,
    Shorter,
    Cut,
}

impl Kind {
    // What a call is lent for such a list, of all that there is. `exhaustive` has other kinds, and lends a longer list too.
    pub fn lend(self, all: Lent<'_>) -> Lent<'_> {
        match self {
            Kind::Shorter => all.shorter(),
            Kind::Cut => all.cut(),
            _ => all,
        }
    }
}

// List k of sheet n, and the choice of the program that tries it.
#[derive(Clone, Copy)]
pub struct Trial<'a> {
    pub n: u64,
    pub k: u8,
    pub sheet: &'a Sheet,
    pub choice: Choice,
}

impl Trial<'_> {
    // A number that is drawn for this list.
    pub fn draw(self, what: u64, range: RangeInclusive<u8>) -> u8 {
        draw(self.n, what, self.k as usize, range)
    }

    pub fn kind(self) -> Kind {
        match self.draw(40, 0..=11) {
            0 => Kind::Allowed,
            1 => Kind::Changed,
            2 => Kind::Shorter,
            3 => Kind::Cut,
            4 | 5 => Kind::InRange,
            _ => Kind::Chosen,
        }
    }

    pub fn list(self, kind: Kind) -> List {
        match kind {
            Kind::Allowed => list_of(bits(self.n, 41, self.k as usize), self.sheet),
            Kind::InRange => self.draw_list(Choice::Any),
            Kind::Changed => self.change(self.draw_list(self.choice)),
            _ => self.draw_list(self.choice),
        }
    }

    // Another column for one of the first ten terminals, if there are so many. `exhaustive` draws both from other ranges, and changes one
    // always.
    fn change(self, start: List) -> List {
        let mut list = start;
        let t = self.draw(42, 0..=9) as usize;
        if t < ROOM {
            list[t] = self.draw(43, 0..=self.sheet.columns);
        }
        list
    }

    // A list drawn terminal by terminal.
    fn draw_list(self, choice: Choice) -> List {
        let sheet = self.sheet;
        let mut list = [0; ROOM];
        // by index, since each column is drawn from those that the list has so far
        for t in 0..sheet.pins() {
            let next = Next {
                sheet,
                terminal: sheet.records[t],
                before: &list[..t],
            };
            list[t] = next.choose(choice, bits(self.n, 50 + self.k as u64, t));
        }
        list
    }
}

// A terminal that is to have a column, where those before it have theirs.
#[derive(Clone, Copy)]
struct Next<'a> {
    sheet: &'a Sheet,
    terminal: Record,
    before: &'a [u8],
}

impl Next<'_> {
    // One of the first columns to choose from, by a drawn number: so many that the terminals behind mostly find a column too.
    fn choose(self, choice: Choice, number: u64) -> u8 {
        let set = self.choices(choice);
        let few = (set.count_ones() as u64).div_ceil(self.behind() + 1);
        column(set, number % few.max(1))
    }

    // The columns to choose from: those in range of the choice, if there are any; else those in range, if there are any; else all that are
    // allowed.
    fn choices(self, choice: Choice) -> u64 {
        let near = self.terminal.allowed & self.in_range();
        let chosen = match choice {
            Choice::Any => near,
            Choice::Alone => near & !self.other_nets(),
            Choice::Facing => near & self.other_nets(),
        };
        if chosen != 0 {
            chosen
        } else if near != 0 {
            near
        } else {
            self.terminal.allowed
        }
    }

    // The columns in range of the pin before on the same side; all where there is none.
    fn in_range(self) -> u64 {
        let before = self.before;
        match before.last() {
            Some(last) if before.len() != self.sheet.top as usize => {
                from(*last, self.terminal.least) & up_to(*last, self.terminal.greatest)
            }
            _ => u64::MAX,
        }
    }

    // The columns that pins of other nets have.
    fn other_nets(self) -> u64 {
        let mut set = 0;
        for (other, column) in self.sheet.terminals().iter().zip(self.before) {
            if other.net != self.terminal.net {
                set |= single(*column);
            }
        }
        set
    }

    // How many terminals of the same side stand behind this one.
    fn behind(self) -> u64
        ensures { result ≤ 255 }
    {
        let t = self.before.len();
        let top = self.sheet.top as usize;
        let end = if t < top { top } else { self.sheet.pins() };
        end.saturating_sub(t).saturating_sub(1) as u64
    }
}

// The columns that are at least so many behind one. This and `up_to` are the tests' own reading of a distance pair: they ask the library
// nothing that they check.
fn from(before: u8, least: u8) -> u64 {
    match before.saturating_add(least) {
        0 => u64::MAX,
        c @ 1..=64 => u64::MAX << (c - 1),
        _ => 0,
    }
}

// The columns that are at most so many behind one.
fn up_to(before: u8, greatest: u8) -> u64 {
    full_set(before.saturating_add(greatest))
}
