// What occurs on the sheets: without it, that none differs would say little.
use crate::{MEASUREMENTS, SHEETS};
use std::fmt;

// The sheets with the mark CQ, those with a net that leaves the channel, those with an assignment, and with more than one of the least
// density; the lists that are assignments, of these those with a straight wire that counts, and the lists that are refused for a distance
// too short or too long; the sheets on which a call did not do what it must.
#[derive(Clone, Copy, Debug, Default, PartialEq, Eq)]
pub struct Tally {
    pub cq: u64,
    pub leaving: u64,
    pub found: u64,
    pub tied: u64,
    pub assignments: u64,
    pub straight: u64,
    pub short: u64,
    pub long: u64,
    pub wrong: u64,
}

impl Tally {
    // Sums that wrap ask for no bound on the counts; as they wrap, this is a function and no `+`.
    pub fn plus(self, other: Tally) -> Tally {
        Tally {
            cq: self.cq.wrapping_add(other.cq),
            leaving: self.leaving.wrapping_add(other.leaving),
            found: self.found.wrapping_add(other.found),
            tied: self.tied.wrapping_add(other.tied),
            assignments: self.assignments.wrapping_add(other.assignments),
            straight: self.straight.wrapping_add(other.straight),
            short: self.short.wrapping_add(other.short),
            long: self.long.wrapping_add(other.long),
            wrong: self.wrong.wrapping_add(other.wrong),
        }
    }
}

impl fmt::Display for Tally {
    fn fmt<W: fmt::Write>(&self, f: &mut fmt::Formatter<W>) -> fmt::Result {
        write!(
            f,
            "{SHEETS} sheets, {} with the mark CQ, {} with a net that leaves, ",
            self.cq, self.leaving
        )?;
        write!(
            f,
            "{} with an assignment, {} with a tie, ",
            self.found, self.tied
        )?;
        write!(
            f,
            "{MEASUREMENTS} measurements, {} of an assignment, ",
            self.assignments
        )?;
        write!(
            f,
            "of these {} with a straight wire that counts, ",
            self.straight
        )?;
        write!(
            f,
            "{} refused for a distance too short, {} for one too long, ",
            self.short, self.long
        )?;
        write!(f, "{} differences", self.wrong)
    }
}
