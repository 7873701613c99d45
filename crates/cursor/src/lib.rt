// The steps through a sheet's terminals, top then bottom.
#![tactic(auto)]

ghost use Rattle.std.specs.Prelude.{◌≡◌};
ghost use Rattle.sheet.specs.Parts.{entry_at};
ghost use Rattle.cursor.specs.Visits.{start, step_of, visit_of};

use format::Side;
use sheet::{record_at, shape_of};
use terminal::Record;

// How many terminals of a sheet have been passed, top then bottom.
#[derive(Clone, Copy)]
pub struct Cursor {
    pub passed: usize,
}

// One terminal of a sheet: its side, its place in that side's order from 1, and its record.
#[derive(Clone, Copy)]
pub struct Visit {
    pub side: Side,
    pub place: usize,
    pub terminal: Record,
}

impl Cursor {
    // The cursor before the first terminal.
    pub fn new() -> Self
        ensures { result ≡ start }
    {
        Cursor { passed: 0 }
    }

    // The next terminal and the cursor past it, or nothing at the end. A refused sheet is at its end at once.
    pub fn step(self, s: &[u8]) -> Option<(Visit, Cursor)>
        ensures { result ≡ step_of s.now self }
    {
        let passed = self.passed;
        let shape = shape_of(s);
        if shape.pins <= passed {
            return None;
        }
        let next = Cursor { passed: passed + 1 };
        let top = shape.top;
        if passed < top {
            found_at(s, Side::Top, passed + 1, next)
        } else {
            found_at(s, Side::Bottom, passed - top + 1, next)
        }
    }
}

// The terminal at a side and place, with the cursor past it.
fn found_at(s: &[u8], side: Side, place: usize, next: Cursor) -> Option<(Visit, Cursor)>
    ensures { result ≡ visit_of side place next (entry_at s.now side place) }
{
    let terminal = record_at(s, side, place)?;
    let visit = Visit {
        side,
        place,
        terminal,
    };
    Some((visit, next))
}
