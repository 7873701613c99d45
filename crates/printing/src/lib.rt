// The test programs' answers, as text.
#![tactic(auto)]

use format::Side;
use refusals::{ListRefusal, Reason};
use searched::SearchRefusal;
use std::fmt;
use std::io::{self, Write};
use terminal::Record;

// The columns of a list, each behind a space.
#[derive(Clone, Copy)]
pub struct Columns<'a>(pub &'a [u8]);

impl fmt::Display for Columns<'_> {
    fn fmt<W: fmt::Write>(&self, f: &mut fmt::Formatter<W>) -> fmt::Result {
        for column in self.0 {
            write!(f, " {column}")?;
        }
        Ok(())
    }
}

// A terminal's side, and its place there.
#[derive(Clone, Copy)]
pub struct Place(pub Side, pub usize);

impl fmt::Display for Place {
    fn fmt<W: fmt::Write>(&self, f: &mut fmt::Formatter<W>) -> fmt::Result {
        write!(f, "{} {}", letter(self.0), self.1)
    }
}

// A record's numbers; the columns of its set are for the caller to write.
#[derive(Clone, Copy)]
pub struct Fields(pub Record);

impl fmt::Display for Fields {
    fn fmt<W: fmt::Write>(&self, f: &mut fmt::Formatter<W>) -> fmt::Result {
        let r = self.0;
        write!(
            f,
            "net {} least {} greatest {} allowed",
            r.net, r.least, r.greatest
        )
    }
}

// A side's letter. By hand, not by `lines`: the tests ask the library nothing that they check.
pub fn letter(side: Side) -> char {
    match side {
        Side::Top => 'T',
        Side::Bottom => 'B',
    }
}

pub fn yes_or_no(yes: bool) -> &'static str {
    if yes { "yes" } else { "no" }
}

// The name of a sheet, and the refusal that it earns; `sound` is for one that earns none.
pub fn verdict<W: Write>(out: &mut W, name: &str, sound: &str, s: &[u8]) -> io::Result<()> {
    verdict_in_bytes(out, name.as_bytes(), sound, s)
}

// The same where the name is bytes of any kind.
pub fn verdict_in_bytes<W: Write>(
    out: &mut W,
    name: &[u8],
    sound: &str,
    s: &[u8],
) -> io::Result<()> {
    out.write_all(name)?;
    match soundness::check(s) {
        Ok(()) => writeln!(out, ": {sound}"),
        Err(why) => writeln!(out, ": refused {}", why.number()),
    }
}

// The density of an answer, or the number of its refusal.
fn answer<W: fmt::Write, T: fmt::Display + Copy, E: Reason + Copy>(
    f: &mut fmt::Formatter<W>,
    answer: Result<T, E>,
) -> fmt::Result {
    match answer {
        Ok(density) => write!(f, "density {density}"),
        Err(why) => write!(f, "refused {}", why.number()),
    }
}

// The answer of a measurement, with the amount that comes with 14.
#[derive(Clone, Copy)]
pub struct Measurement<T>(pub Result<T, ListRefusal>);

impl<T: fmt::Display + Copy> fmt::Display for Measurement<T> {
    fn fmt<W: fmt::Write>(&self, f: &mut fmt::Formatter<W>) -> fmt::Result {
        answer(f, self.0)?;
        match self.0 {
            Err(ListRefusal::Distance(amount)) => write!(f, ", amount {amount}"),
            _ => Ok(()),
        }
    }
}

// The answer of a search, with the columns that it found.
#[derive(Clone, Copy)]
pub struct Found<'a, T>(pub Result<T, SearchRefusal>, pub &'a [u8]);

impl<T: fmt::Display + Copy> fmt::Display for Found<'_, T> {
    fn fmt<W: fmt::Write>(&self, f: &mut fmt::Formatter<W>) -> fmt::Result {
        answer(f, self.0)?;
        if self.0.is_err() {
            Ok(())
        } else if self.1.is_empty() {
            write!(f, ", no columns")
        } else {
            write!(f, ", columns{}", Columns(self.1))
        }
    }
}

#[cfg(test)]
mod tests {
    use super::*;

    // A sheet of one bottom terminal, which is sound, and one of no bytes.
    #[test]
    fn verdict_says_name_and_refusal(rt: HostRuntime) -> io::Result<()> {
        let one = b"\x05\x00\x00\x00\x00\x00\x00\x00\x00\x00\x00\x00\
            \x00\x00\x00\x00\x00\x00\x01\x00\x01\x00CP";
        let mut out = Vec::new(rt.alloc());
        verdict(&mut out, "one terminal", "sound", one)?;
        verdict(&mut out, "none", "sound", b"")?;
        assert_eq!(rt;
            out.as_slice(),
            b"one terminal: sound\nnone: refused 1\n".as_slice()
        );
        Ok(())
    }
}
