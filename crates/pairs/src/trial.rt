// Two searches by one call, in marked buffers.

use buffers::first;
use fixtures::{Page, SheetA};
use printing::{Found, yes_or_no};
use search::Both;
use searched::Searched;
use std::io::{self, Write};

// The columns of a sheet's four terminals and the work cells of six columns, and some behind.
const BYTES: usize = 8;

const CELLS: usize = 450;

// The terminals of sheet A.
const PINS: usize = 4;

// What the rules say of the two searches.
#[derive(Clone, Copy, Debug, PartialEq, Eq)]
pub enum Rule {
    NoHigher,
    Same,
    Nothing,
}

// A form of sheet A, the work cells that it needs, and the column bytes and the work cells that its search is lent.
#[derive(Clone, Copy)]
pub struct Form {
    sheet: SheetA,
    needed: usize,
    bytes: usize,
    cells: usize,
}

impl Form {
    // A form in longer buffers than it needs.
    pub fn new(sheet: SheetA, needed: usize) -> Form {
        Form {
            sheet,
            needed,
            bytes: 6,
            cells: needed.saturating_add(3),
        }
    }

    pub fn in_buffers(self, bytes: usize, cells: usize) -> Form {
        Form {
            bytes,
            cells,
            ..self
        }
    }
}

// A sheet and the marked buffers that its search is lent.
#[derive(Drop)]
struct Room {
    form: Form,
    page: Page,
    columns: [u8; BYTES],
    work: [u16; CELLS],
}

impl Room {
    fn new(form: Form) -> Room {
        let mut page = Page::new();
        page.put_sheet_a(form.sheet);
        let mut columns = [0; BYTES];
        let mut work = [0; CELLS];
        buffers::mark(&mut columns);
        buffers::mark(&mut work);
        Room {
            form,
            page,
            columns,
            work,
        }
    }

    // The sheet's bytes, and what its search is lent of the buffers.
    fn lend(&mut self) -> (&[u8], &mut [u8], &mut [u16]) {
        let Room {
            form,
            page,
            columns,
            work,
        } = self;
        let columns = first(columns, form.bytes);
        let work = first(work, form.cells);
        (page.sheet(), columns, work)
    }

    // A search's line; whether it left its buffers as the rules say.
    fn report<W: Write>(&self, out: &mut W, answer: Searched) -> io::Result<bool> {
        writeln!(out, "{}", Found(answer, &self.columns[..PINS]))?;
        Ok(buffers::left(answer, PINS, self.form.needed, &self.columns, &self.work))
    }
}

pub fn pair<W: Write>(
    out: &mut W,
    title: &str,
    one: Form,
    other: Form,
    rule: Rule,
) -> io::Result<()> {
    let mut one = Room::new(one);
    let mut other = Room::new(other);
    let (s, columns, work) = one.lend();
    let (t, other_columns, other_work) = other.lend();
    let both = search::search_both(s, columns, work, t, other_columns, other_work);
    write!(out, "{title}\n  first: ")?;
    let one_left = one.report(out, both.first)?;
    write!(out, "  second: ")?;
    let other_left = other.report(out, both.second)?;
    compare(out, rule, both)?;
    writeln!(
        out,
        "  buffers as the rules say: {}",
        yes_or_no(one_left && other_left)
    )
}

fn compare<W: Write>(out: &mut W, rule: Rule, both: Both) -> io::Result<()> {
    let densities = both.first.ok().zip(both.second.ok());
    match rule {
        Rule::NoHigher => {
            let holds = densities.is_some_and(|(d, e)| e <= d);
            writeln!(out, "  the second no higher: {}", yes_or_no(holds))
        }
        Rule::Same => {
            let holds = densities.is_some_and(|(d, e)| e == d);
            writeln!(out, "  the same density: {}", yes_or_no(holds))
        }
        Rule::Nothing => writeln!(out, "  no rule for the two densities"),
    }
}
