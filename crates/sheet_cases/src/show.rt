// What the sheet layer answers, in lines of text.
use cursor::Cursor;
use format::Side;
use printing::{Columns, Fields, Place, letter};
use std::fmt;
use std::io::{self, Write};
use terminal::Record;

pub fn shape<W: Write>(out: &mut W, s: &[u8]) -> io::Result<()> {
    let shape = sheet::shape_of(s);
    write!(
        out,
        "  shape: columns {} top {} bottom {}",
        shape.columns, shape.top, shape.bottom
    )?;
    writeln!(out, " cells {} pins {}", shape.cells, shape.pins)
}

// A record's numbers, with its set.
#[derive(Clone, Copy)]
struct Whole(Record);

impl fmt::Display for Whole {
    fn fmt<W: fmt::Write>(&self, f: &mut fmt::Formatter<W>) -> fmt::Result {
        write!(f, "{} 0x{:x}", Fields(self.0), self.0.allowed)
    }
}

// What stands at a place.
#[derive(Clone, Copy)]
struct Entry(Option<Record>);

impl fmt::Display for Entry {
    fn fmt<W: fmt::Write>(&self, f: &mut fmt::Formatter<W>) -> fmt::Result {
        match self.0 {
            Some(r) => write!(f, "{}", Whole(r)),
            None => write!(f, "nothing"),
        }
    }
}

// The records of a side from one place up to another.
pub fn records<W: Write>(out: &mut W, s: &[u8], side: Side, from: u64, end: u64) -> io::Result<()> {
    for place in from as usize..end as usize {
        let found = Entry(sheet::record_at(s, side, place));
        writeln!(out, "  record {}: {found}", Place(side, place))?;
    }
    Ok(())
}

// The record at a place of a section.
pub fn record_in<W: Write>(out: &mut W, part: &[u8], place: u64) -> io::Result<()> {
    let length = part.len();
    let found = Entry(sheet::record_in(part, place as usize));
    writeln!(out, "  record {place} of a section of {length}: {found}")
}

// A section's length and its first bytes, at most sixteen.
pub fn section<W: Write>(out: &mut W, s: &[u8], side: Side) -> io::Result<()> {
    let part = sheet::section(s, side);
    let length = part.len();
    let front = Columns(&part[..length.min(16)]);
    writeln!(out, "  section {}: length {length}{front}", letter(side))
}

// So many steps from the first terminal on.
pub fn walk<W: Write>(out: &mut W, s: &[u8], steps: u64) -> io::Result<()> {
    let mut cursor = Cursor::new();
    for _ in 0..steps {
        write!(out, "  ")?;
        cursor = step(out, s, cursor)?;
    }
    Ok(())
}

// One step after `passed` terminals.
pub fn step_after<W: Write>(out: &mut W, s: &[u8], passed: u64) -> io::Result<()> {
    write!(out, "  after {passed}: ")?;
    let cursor = Cursor {
        passed: passed as usize,
    };
    step(out, s, cursor)?;
    Ok(())
}

// One step; gives the cursor past what it finds.
fn step<W: Write>(out: &mut W, s: &[u8], cursor: Cursor) -> io::Result<Cursor> {
    match cursor.step(s) {
        Some((visit, next)) => {
            let place = Place(visit.side, visit.place);
            let terminal = Whole(visit.terminal);
            writeln!(out, "step {}: {place} {terminal}", next.passed)?;
            Ok(next)
        }
        None => {
            writeln!(out, "finished")?;
            Ok(cursor)
        }
    }
}
