// A reader of a sheet: it holds the sheet, and steps through its terminals, top then bottom.
#![tactic(auto)]

ghost use Rattle.std.specs.Prelude.{◌≡◌};
ghost use Rattle.reader.specs.Reader.{step_at};

use cursor::{Cursor, Visit};

// A sheet, and how many of its terminals have been passed.
#[derive(Clone, Copy)]
pub struct Reader<'a> {
    pub sheet: &'a [u8],
    pub passed: usize,
}

// What a sheet has after so many terminals: the next one with the cursor past it, or nothing at the end.
pub fn read_at(sheet: &[u8], passed: usize) -> Option<(Visit, Cursor)>
    ensures { result ≡ step_at sheet.now passed }
{
    Cursor { passed }.step(sheet)
}

impl<'a> Reader<'a> {
    // The reader before the first terminal.
    pub fn new(sheet: &'a [u8]) -> Self
        ensures sheet { result.sheet ≡ sheet.entry }
        ensures start { result.passed ≡ 0 }
    {
        Reader { sheet, passed: 0 }
    }

    // What the next step finds.
    pub fn peek(self) -> Option<(Visit, Cursor)>
        ensures { result ≡ step_at self.entry.sheet.now self.entry.passed }
    {
        read_at(self.sheet, self.passed)
    }
}

// A step: the next terminal, which is passed, or the end, at which the reader stays.
impl<'a> Iterator for Reader<'a> {
    ghost use Rattle.reader.specs.Reader.{Stepped, terminals_left};

    type Item = Visit;

    ghost next_gives = { Stepped };

    ghost remaining = { terminals_left };

    #[tactic(auto, using(cursor::proofs::Laws::step_found))]
    fn next(&mut self) -> Option<Visit> {
        let (visit, past) = self.peek()?;
        self.passed = past.passed;
        Some(visit)
    }
}
