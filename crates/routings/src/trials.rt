// One sheet: the library's answer to each of its cases against the program's own reading of the rule.
use crate::LISTS;
use crate::answers::{Shown, agree};
use crate::tally::Tally;
use drawn::{Choice, Trial};
use enumeration::Pins;
use fixtures::{Lent, Page};
use printing::Columns;
use std::fmt;
use std::io::{self, Write};

// A sheet's number, the sheet with one of its lists, what of both a call is lent, and room for so many spans.
#[derive(Clone, Copy)]
pub struct Case<'a> {
    pub n: u64,
    pub pins: Pins<'a>,
    pub lent: Lent<'a>,
    pub room: usize,
}

impl fmt::Display for Case<'_> {
    fn fmt<W: fmt::Write>(&self, f: &mut fmt::Formatter<W>) -> fmt::Result {
        let columns = Columns(self.lent.columns);
        write!(
            f,
            "sheet {} routed at{columns} with room for {}",
            self.n, self.room
        )
    }
}

// Room for too few spans, if there are nets, for as many as there are nets, or for more.
fn room_for(trial: Trial) -> usize {
    let nets = trial.sheet.nets().len();
    match trial.draw(45, 0..=2) {
        0 => nets.saturating_sub(1),
        1 => nets,
        _ => nets + 2,
    }
}

// What all sheets share: where differences are written, and what has occurred so far.
#[derive(Drop)]
pub struct Shared<'a, W> {
    pub out: &'a mut W,
    pub tally: Tally,
}

impl<W: Write> Shared<'_, W> {
    // One call, and what it must answer. The first five that do not are shown.
    fn try_case(&mut self, case: &Case) -> io::Result<()> {
        let wanted = case.expected();
        let given = case.given();
        let wrong = !agree(wanted, given) || !case.is_dense(&wanted);
        if wrong && self.tally.wrong < 5 {
            write!(self.out, "{case}: expected {}; ", Shown(&wanted))?;
            writeln!(self.out, "route {}", Shown(&given))?;
        }
        self.tally.add(&wanted, wrong);
        Ok(())
    }

    // One list of a sheet, whose bytes the page has.
    fn try_list(&mut self, trial: Trial, page: &Page) -> io::Result<()> {
        let Trial { n, sheet, .. } = trial;
        let kind = trial.kind();
        let list = trial.list(kind);
        let all = Lent {
            sheet: page.sheet(),
            columns: &list[..sheet.pins()],
        };
        let case = Case {
            n,
            pins: Pins { sheet, list: &list },
            lent: kind.lend(all),
            room: room_for(trial),
        };
        self.try_case(&case)
    }

    // Every list of sheet n.
    pub fn try_sheet(&mut self, n: u64) -> io::Result<()> {
        let plan = drawn::plan_of(n);
        let sheet = drawn::roomy_sheet_of(n, plan);
        let mut page = Page::new();
        drawn::put_sheet(&mut page, plan, &sheet);
        self.tally.add_sheet(&sheet);
        for k in 0..LISTS {
            let trial = Trial {
                n,
                k,
                sheet: &sheet,
                choice: Choice::Alone,
            };
            self.try_list(trial, &page)?;
        }
        Ok(())
    }
}
