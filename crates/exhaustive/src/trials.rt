// One sheet: the library's search against the exhaustive one, and its measurements against the program's own reading.
ghost use Rattle.std.specs.Prelude.{◌≤◌};

use crate::measures;
use crate::tally::Tally;
use buffers::first;
use drawn::draw;
use enumeration::{Best, Sheet};
use fixtures::{Page, but_last};
use mark::Mark;
use printing::Found;
use refusals::{Refusal, number_of};
use searched::SearchRefusal;
use std::io::{self, Write};

// A sheet with its number and its bytes, the best of its lists, and whether a call that does not do what it must is shown.
#[derive(Clone, Copy)]
pub struct Case {
    pub n: u64,
    pub sheet: Sheet,
    pub page: Page,
    pub best: Option<Best>,
    pub shown: bool,
}

// What all sheets share: where differences are written, and the cells for work.
#[derive(Drop)]
pub struct Shared<'a, W> {
    pub out: &'a mut W,
    pub work: &'a mut [u16],
}

// What a call is lent: the sheet's bytes, so many bytes for columns and so many cells for work.
#[derive(Clone, Copy)]
struct Lent<'a> {
    sheet: &'a [u8],
    bytes: usize,
    cells: usize,
}

// The least density, or why there is none.
type Answer = Result<usize, SearchRefusal>;

// What a call must do: its answer, the columns that it writes and how many cells it clears.
#[derive(Clone, Copy)]
struct Expected<'a> {
    answer: Answer,
    written: &'a [u8],
    cleared: usize,
}

// A refusal that writes nothing.
fn nothing(why: SearchRefusal) -> Expected<'static> {
    Expected {
        answer: Err(why),
        written: &[],
        cleared: 0,
    }
}

// The number of a sheet's refusal by the rules; the sheets that are tried earn no other.
pub fn number_of_sheet(why: Refusal) -> u8 {
    match why {
        Refusal::Short => 1,
        _ => 2,
    }
}

// A refusal's number by the rules, and 0 where there is none.
fn number(answer: Answer) -> u8 {
    match answer {
        Ok(_) => 0,
        Err(SearchRefusal::Sheet(why)) => number_of_sheet(why),
        Err(SearchRefusal::Columns) => 9,
        Err(SearchRefusal::Cells) => 10,
        Err(SearchRefusal::NoAssignment) => 11,
    }
}

// The work cells that a search needs: the program's own reading, since it asks the library nothing that it checks by it.
fn cells_of(sheet: &Sheet) -> usize
    ensures { result ≤ 4294967296 }
{
    let plane = (sheet.columns as usize + 1) * (sheet.columns as usize + 1);
    (sheet.top as usize + 1) * (sheet.bottom as usize + 1) * plane
}

impl Case {
    // Why the sheet is refused without its last byte: a trailer by itself is then too short, and behind a record it has no mark.
    pub fn cut_refusal(&self) -> Refusal {
        if self.sheet.pins() == 0 {
            Refusal::Short
        } else {
            Refusal::Mark
        }
    }

    // What a call is lent that is to give the answer.
    fn lent(&self) -> Lent<'_>
        ensures { (result.bytes ≤ 12) × (result.cells ≤ 4294967296) }
    {
        Lent {
            sheet: self.page.sheet(),
            bytes: self.sheet.pins(),
            cells: cells_of(&self.sheet),
        }
    }

    // One call on the sheet.
    fn call_agrees<W: Write>(
        &self,
        shared: &mut Shared<W>,
        lent: Lent,
        expected: Expected,
    ) -> io::Result<bool> {
        // the columns of eight terminals, and four to spare
        let mut room = [0; 12];
        let columns = first(&mut room, lent.bytes);
        let cells = first(shared.work, lent.cells);
        buffers::mark(columns);
        buffers::mark(cells);
        let given = search::search(lent.sheet, columns, cells).map(usize::from);
        let good = given == expected.answer
            && number_of(given) == number(expected.answer)
            && buffers::columns_left(columns, expected.written)
            && buffers::work_left(cells, expected.cleared);
        // both outcomes; where they are alike, a number is wrong or a buffer is not left as it must be
        if !good && self.shown {
            let wanted = Found(expected.answer, expected.written);
            writeln!(shared.out, "sheet {}, exhaustive: {wanted}", self.n)?;
            writeln!(shared.out, "  search: {}", Found(given, columns))?;
        }
        Ok(good)
    }

    // The refusals: a sheet cut by a byte, a work buffer that is one too short, and that with a column buffer that is
    // one too short, if there are columns.
    fn refusals_agree<W: Write>(&self, shared: &mut Shared<W>) -> io::Result<bool> {
        let lent = self.lent();
        let cut = Lent {
            sheet: but_last(lent.sheet),
            ..lent
        };
        let few = Lent {
            cells: lent.cells.saturating_sub(1),
            ..lent
        };
        let fewer = Lent {
            bytes: lent.bytes.saturating_sub(1),
            ..few
        };
        let both = if lent.bytes == 0 {
            SearchRefusal::Cells
        } else {
            SearchRefusal::Columns
        };
        let mark = SearchRefusal::Sheet(self.cut_refusal());
        let a = self.call_agrees(shared, cut, nothing(mark))?;
        let b = self.call_agrees(shared, few, nothing(SearchRefusal::Cells))?;
        let c = self.call_agrees(shared, fewer, nothing(both))?;
        Ok(a && b && c)
    }

    // The answer, in buffers of the needed length or a little longer.
    fn answers_agree<W: Write>(&self, shared: &mut Shared<W>) -> io::Result<bool> {
        let lent = self.lent();
        let spare = draw(self.n, 30, 0, 0..=4) as usize;
        let longer = Lent {
            sheet: lent.sheet,
            bytes: lent.bytes + spare,
            cells: lent.cells + spare,
        };
        let expected = match &self.best {
            Some(best) => Expected {
                answer: Ok(best.density),
                written: &best.list[..lent.bytes],
                cleared: lent.cells,
            },
            None => Expected {
                cleared: lent.cells,
                ..nothing(SearchRefusal::NoAssignment)
            },
        };
        self.call_agrees(shared, longer, expected)
    }
}

// Every call on the sheet.
pub fn try_sheet<W: Write>(shared: &mut Shared<W>, n: u64, shown: bool) -> io::Result<Tally> {
    let plan = drawn::plan_of(n);
    let sheet = drawn::sheet_of(n, plan);
    let mut page = Page::new();
    drawn::put_sheet(&mut page, plan, &sheet);
    let best = enumeration::find_best(&sheet);
    let case = Case {
        n,
        sheet,
        page,
        best,
        shown,
    };
    let refusals = case.refusals_agree(shared)?;
    let answers = case.answers_agree(shared)?;
    let lists = measures::measure_all(shared.out, &case)?;
    let mut nets = sheet
        .terminals()
        .iter()
        .map(|terminal| enumeration::leaves(terminal.net));
    Ok(Tally {
        cq: (sheet.mark == Mark::Cq) as u64,
        leaving: nets.any(|ends| ends.any()) as u64,
        found: best.is_some() as u64,
        tied: best.is_some_and(|best| best.tied) as u64,
        wrong: (!refusals || !answers || lists.wrong != 0) as u64,
        ..lists
    })
}
