// What a reading finds, as text.
use cursor::Visit;
use printing::{Fields, Place};
use std::fmt;

// What one step finds.
#[derive(Clone, Copy)]
pub struct Found(pub Option<Visit>);

impl fmt::Display for Found {
    fn fmt<W: fmt::Write>(&self, f: &mut fmt::Formatter<W>) -> fmt::Result {
        let Some(visit) = self.0 else {
            return write!(f, "finished");
        };
        let place = Place(visit.side, visit.place);
        let fields = Fields(visit.terminal);
        write!(f, "{place} {fields}{}", Set(visit.terminal.allowed))
    }
}

// The columns of a set, each behind a space.
#[derive(Clone, Copy)]
struct Set(u64);

impl fmt::Display for Set {
    fn fmt<W: fmt::Write>(&self, f: &mut fmt::Formatter<W>) -> fmt::Result {
        let set = self.0;
        if set == 0 {
            write!(f, " none")?;
        }
        for k in 0..64u64 {
            if set >> k & 1 == 1 {
                write!(f, " {}", k + 1)?;
            }
        }
        Ok(())
    }
}
