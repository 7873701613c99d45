// What occurs among the lists: without it, that none differs would say little.
use crate::SHEETS;
use crate::answers::Answer;
use crate::features::{is_between, is_constrained, is_leaving_pin, is_left_out};
use crate::trials::Case;
use chained::ChainRefusal;
use enumeration::{Chain, Pins, Sheet};
use mark::Mark;
use std::fmt;

// The sheets with the mark CQ. All lists: those refused as a measurement is; those with a circle and, of these, those with a lower net in a
// constraint and with a lower net on the way from a circle to another; those of each number of nets of the longest chain, seven at the most
// where six columns have two pins; those with a chain above the density. With a circle or without, those where a net that leaves is in a
// constraint by its one pin, those where a plain net is in none for its one pin, and those with a straight wire that counts. The lists
// whose answers differ.
#[derive(Clone, Copy, Debug, Default, PartialEq, Eq)]
pub struct Tally {
    pub cq: u64,
    pub lists: u64,
    pub refused: u64,
    pub circles: u64,
    pub lower: u64,
    pub between: u64,
    pub chains: [u64; 8],
    pub above: u64,
    pub leaving: u64,
    pub left_out: u64,
    pub straight: u64,
    pub wrong: u64,
}

// One more where it is so; a sum that wraps asks for no bound.
fn count(n: &mut u64, so: bool) {
    *n = n.wrapping_add(so as u64);
}

impl Tally {
    // One sheet more.
    pub fn add_sheet(&mut self, sheet: &Sheet) {
        count(&mut self.cq, sheet.mark == Mark::Cq);
    }

    // One list more, by the answer that is expected.
    pub fn add(&mut self, case: &Case, answer: Answer, wrong: bool) {
        count(&mut self.lists, true);
        count(&mut self.wrong, wrong);
        match answer {
            Ok(chain) => self.add_chain(case.pins, chain),
            Err(ChainRefusal::Circle(net)) => self.add_circle(case.pins, net),
            Err(ChainRefusal::Listed(_)) => count(&mut self.refused, true),
        }
    }

    fn add_circle(&mut self, pins: Pins, lowest: u16) {
        count(&mut self.circles, true);
        let nets = pins.sheet.nets();
        let constrained = nets
            .iter()
            .any(|net| *net < lowest && is_constrained(pins, *net));
        let between = nets
            .iter()
            .any(|net| *net < lowest && is_between(pins, *net));
        count(&mut self.lower, constrained);
        count(&mut self.between, between);
        self.add_pins(pins);
    }

    fn add_chain(&mut self, pins: Pins, chain: Chain) {
        count(&mut self.above, pins.density() < chain.nets);
        if let Some(chains) = self.chains.get_mut(chain.nets) {
            count(chains, true);
        }
        self.add_pins(pins);
    }

    fn add_pins(&mut self, pins: Pins) {
        let nets = pins.sheet.nets();
        let leaving = nets.iter().any(|net| is_leaving_pin(pins, *net));
        let left_out = nets.iter().any(|net| is_left_out(pins, *net));
        count(&mut self.leaving, leaving);
        count(&mut self.left_out, left_out);
        count(&mut self.straight, pins.have_straight_wire());
    }
}

impl fmt::Display for Tally {
    fn fmt<W: fmt::Write>(&self, f: &mut fmt::Formatter<W>) -> fmt::Result {
        write!(
            f,
            "{SHEETS} sheets, {} with the mark CQ, {} lists, ",
            self.cq, self.lists
        )?;
        write!(f, "{} refused as in a measurement, ", self.refused)?;
        write!(
            f,
            "{} with a circle, of these {} with a lower net in a constraint ",
            self.circles, self.lower
        )?;
        write!(f, "and {} with a lower one between circles, ", self.between)?;
        for (nets, chains) in self.chains.iter().enumerate() {
            if *chains != 0 {
                write!(f, "{chains} with chain {nets}, ")?;
            }
        }
        write!(f, "{} with a chain above the density, ", self.above)?;
        write!(
            f,
            "{} with a net that leaves in a constraint by its one pin, ",
            self.leaving
        )?;
        write!(
            f,
            "{} with a plain net of one pin left out, ",
            self.left_out
        )?;
        write!(f, "{} with a straight wire that counts, ", self.straight)?;
        write!(f, "{} differences", self.wrong)
    }
}
