// One sheet: the library's answer to each of its cases against the program's own reading of the rule.
use crate::LISTS;
use crate::answers::{Shown, agree};
use crate::sheets::{plan_of, sheet_of};
use crate::tally::Tally;
use drawn::{Choice, Trial};
use enumeration::Pins;
use fixtures::{Lent, Page};
use printing::Columns;
use std::fmt;
use std::io::{self, Write};

// A sheet's number, the sheet with one of its lists, and what of both a call is lent.
#[derive(Clone, Copy)]
pub struct Case<'a> {
    pub n: u64,
    pub pins: Pins<'a>,
    pub lent: Lent<'a>,
}

impl fmt::Display for Case<'_> {
    fn fmt<W: fmt::Write>(&self, f: &mut fmt::Formatter<W>) -> fmt::Result {
        let columns = Columns(self.lent.columns);
        write!(f, "sheet {} at{columns}", self.n)
    }
}

// What all sheets share: where differences are written, and what has occurred so far.
#[derive(Drop)]
pub struct Shared<'a, W> {
    pub out: &'a mut W,
    pub tally: Tally,
}

impl<W: Write> Shared<'_, W> {
    // One call, and what it must answer. The first five that do not are shown.
    fn try_case(&mut self, case: &Case) -> io::Result<()> {
        let wanted = case.expected();
        let given = case.given();
        let wrong = !agree(wanted, given);
        if wrong && self.tally.wrong < 5 {
            write!(self.out, "{case}: expected {}; ", Shown(wanted))?;
            writeln!(self.out, "chain {}", Shown(given))?;
        }
        self.tally.add(case, wanted, wrong);
        Ok(())
    }

    // One list of a sheet, whose bytes the page has.
    fn try_list(&mut self, trial: Trial, page: &Page) -> io::Result<()> {
        let Trial { n, sheet, .. } = trial;
        let kind = trial.kind();
        let list = trial.list(kind);
        let all = Lent {
            sheet: page.sheet(),
            columns: &list[..sheet.pins()],
        };
        let case = Case {
            n,
            pins: Pins { sheet, list: &list },
            lent: kind.lend(all),
        };
        self.try_case(&case)
    }

    // Every list of sheet n.
    pub fn try_sheet(&mut self, n: u64) -> io::Result<()> {
        let plan = plan_of(n);
        let sheet = sheet_of(n, plan);
        let mut page = Page::new();
        drawn::put_sheet(&mut page, plan, &sheet);
        self.tally.add_sheet(&sheet);
        for k in 0..LISTS {
            let trial = Trial {
                n,
                k,
                sheet: &sheet,
                choice: Choice::Facing,
            };
            self.try_list(trial, &page)?;
        }
        Ok(())
    }
}
