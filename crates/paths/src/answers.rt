// What is to be answered to a case and what the library answers, in one form.
use crate::trials::Case;
use chained::ChainRefusal;
use enumeration::{Chain, Circle};
use refusals::{HasAmount, Reason, amount_of, number_of};
use std::fmt;

pub type Answer = Result<Chain, ChainRefusal>;

impl Case<'_> {
    // What is to be answered: the measurement's refusal, or what the rule says.
    pub fn expected(&self) -> Answer {
        measure::measure(self.lent.sheet, self.lent.columns)?;
        // a map in place: neither type is this crate's, so it may not write a `From`
        self.pins
            .chain()
            .map_err(|Circle(net)| ChainRefusal::Circle(net))
    }

    // What the library answers, in the type of `enumeration`, which asks the library nothing.
    pub fn given(&self) -> Answer {
        let chain = chains::chain(self.lent.sheet, self.lent.columns)?;
        Ok(Chain {
            nets: chain.nets as usize,
            bound: chain.bound as usize,
        })
    }
}

// A refusal's number and amount by the rules, and 0 where there is none. Those of a list are the measurement's, which `exhaustive` tries.
fn numbers(answer: Answer) -> (u8, i16) {
    match answer {
        Ok(_) => (0, 0),
        Err(ChainRefusal::Circle(_)) => (19, 0),
        Err(ChainRefusal::Listed(why)) => (why.number(), why.amount()),
    }
}

// Whether an answer is the one that is wanted, in its number and its amount too.
pub fn agree(wanted: Answer, given: Answer) -> bool {
    wanted == given && numbers(wanted) == (number_of(given), amount_of(given))
}

// An answer as it is shown.
#[derive(Clone, Copy)]
pub struct Shown(pub Answer);

impl fmt::Display for Shown {
    fn fmt<W: fmt::Write>(&self, f: &mut fmt::Formatter<W>) -> fmt::Result {
        match self.0 {
            Ok(chain) => write!(f, "of {} nets, bound {}", chain.nets, chain.bound),
            Err(why) => write!(f, "refused {why:?}"),
        }
    }
}
