// The library's measurements on one sheet against the program's own reading of the rules. Most of the measured lists
// need not be assignments.
use crate::tally::Tally;
use crate::trials::{Case, number_of_sheet};
use drawn::{bits, draw, single};
use enumeration::{List, Pins, ROOM, Sheet, count_lists, list_of};
use fixtures::Lent;
use printing::{Columns, Measurement};
use refusals::{ListRefusal, amount_of, number_of};
use std::io::{self, Write};

// The density of a list, or why it has none.
type Answer = Result<usize, ListRefusal>;

// The lists that are measured on a sheet. Where there is no assignment, the first list of allowed columns stands for the best one.
#[derive(Clone, Copy, Debug, PartialEq, Eq)]
pub enum Kind {
    Best,
    First,
    // a drawn list of allowed columns
    Allowed,
    // drawn columns
    Drawn,
    // the best list with one column changed, with one more, and without its last, if it has any
    Changed,
    Longer,
    Shorter,
    // the best list, on the sheet without its last byte
    Cut,
}

pub const KINDS: [Kind; 8] = [
    Kind::Best,
    Kind::First,
    Kind::Allowed,
    Kind::Drawn,
    Kind::Changed,
    Kind::Longer,
    Kind::Shorter,
    Kind::Cut,
];

// A list that is measured on a sheet.
#[derive(Clone, Copy)]
struct Trial<'a> {
    kind: Kind,
    case: &'a Case,
    list: List,
}

impl<'a> Trial<'a> {
    fn new(kind: Kind, case: &'a Case) -> Trial<'a> {
        let sheet = &case.sheet;
        let best = case.best.map_or(list_of(0, sheet), |best| best.list);
        let list = match kind {
            Kind::First => list_of(0, sheet),
            Kind::Allowed => list_of(bits(case.n, 31, 0) % count_lists(sheet).max(1), sheet),
            Kind::Drawn => draw_columns(case.n, sheet),
            Kind::Changed => change(case.n, sheet, best),
            _ => best,
        };
        Trial { kind, case, list }
    }

    // What a call is lent. The lists of `drawn` have other kinds, and none is longer: what is alike is `shorter` and `cut`, which both call.
    fn lend(&self) -> Lent<'_> {
        let pins = self.case.sheet.pins();
        let list = &self.list;
        let all = Lent {
            sheet: self.case.page.sheet(),
            columns: &list[..pins],
        };
        match self.kind {
            Kind::Longer => Lent {
                columns: &list[..(pins + 1).min(ROOM)],
                ..all
            },
            Kind::Shorter => all.shorter(),
            Kind::Cut => all.cut(),
            _ => all,
        }
    }

    fn pins(&self) -> Pins<'_> {
        Pins {
            sheet: &self.case.sheet,
            list: &self.list,
        }
    }

    // What is to be answered, by the program's own reading, with the refusals in the order of the rules. The density of the best list is
    // the one that the exhaustive search found.
    fn expected(&self) -> Answer {
        let case = self.case;
        match self.kind {
            Kind::Best if let Some(best) = case.best => return Ok(best.density),
            Kind::Cut => return Err(ListRefusal::Sheet(case.cut_refusal())),
            _ => {}
        }
        if self.lend().columns.len() != case.sheet.pins() {
            return Err(ListRefusal::Count);
        }
        let pins = self.pins();
        if !all_allowed(pins) {
            return Err(ListRefusal::Allowed);
        }
        match pins.first_amount() {
            Some(amount) => Err(ListRefusal::Distance(amount)),
            None => Ok(pins.density()),
        }
    }
}

fn draw_columns(n: u64, sheet: &Sheet) -> List {
    let mut list = [0; ROOM];
    for (t, column) in list.iter_mut().take(sheet.pins()).enumerate() {
        *column = draw(n, 32, t, 0..=sheet.columns);
    }
    list
}

// Another column for one terminal: mostly one from 0 to L, sometimes any byte. `drawn` draws both from other ranges, so that only the
// write would be left for a function of both.
fn change(n: u64, sheet: &Sheet, start: List) -> List {
    let mut list = start;
    let last = sheet.pins().saturating_sub(1) as u8;
    let t = draw(n, 33, 0, 0..=last) as usize;
    let most = if n % 4 == 0 { 255 } else { sheet.columns };
    if t < ROOM {
        list[t] = draw(n, 34, 0, 0..=most);
    }
    list
}

// Whether each column is in its terminal's set.
fn all_allowed(pins: Pins) -> bool {
    let mut pins = pins.sheet.terminals().iter().zip(pins.list);
    pins.all(|(terminal, column)| terminal.allowed & single(*column) != 0)
}

// A refusal's number and amount by the rules, and 0 where there is none.
fn numbers(answer: Answer) -> (u8, i16) {
    match answer {
        Ok(_) => (0, 0),
        Err(ListRefusal::Sheet(why)) => (number_of_sheet(why), 0),
        Err(ListRefusal::Count) => (12, 0),
        Err(ListRefusal::Allowed) => (13, 0),
        Err(ListRefusal::Distance(amount)) => (14, amount),
    }
}

// Measures a list; the tally has one wrong where the answer is.
fn measure_one<W: Write>(out: &mut W, kind: Kind, case: &Case) -> io::Result<Tally> {
    let trial = Trial::new(kind, case);
    let lent = trial.lend();
    let wanted = trial.expected();
    let given = measure::measure(lent.sheet, lent.columns).map(|density| density as usize);
    let (number, amount) = numbers(wanted);
    let wrong = wanted != given || (number, amount) != (number_of(given), amount_of(given));
    if wrong && case.shown {
        let columns = Columns(lent.columns);
        write!(out, "sheet {} measured at{columns}: ", case.n)?;
        write!(out, "expected {}, ", Measurement(wanted))?;
        writeln!(out, "measure {}", Measurement(given))?;
    }
    Ok(Tally {
        assignments: wanted.is_ok() as u64,
        straight: (wanted.is_ok() && trial.pins().have_straight_wire()) as u64,
        short: (amount < 0) as u64,
        long: (amount > 0) as u64,
        wrong: wrong as u64,
        ..Tally::default()
    })
}

// Measures all lists of a sheet.
pub fn measure_all<W: Write>(out: &mut W, case: &Case) -> io::Result<Tally> {
    let mut tally = Tally::default();
    for kind in KINDS {
        tally = tally.plus(measure_one(out, kind, case)?);
    }
    Ok(tally)
}
