// Runs the cases of the standard input: sheets at the edges of the format, and what the sheet layer answers for each.
// `cases` says how a case is written, and has the commands that build a sheet; those that ask are here.
#![tactic(auto)]

use cases::{Command, low};
use format::Side;
use std::io::{self, Write};

mod columns;
mod show;

fn ask<W: Write>(out: &mut W, s: &[u8], command: Command) -> io::Result<()> {
    let [a, b, c, d, _, _] = command.numbers;
    // each command has arguments of its own, so a `match` is plainer than a table of closures
    match command.word {
        // a heading
        b'h' => {
            out.write_all(command.name)?;
            writeln!(out)
        }
        // whether the sheet is sound
        b'c' => printing::verdict_in_bytes(out, command.name, "sound", s),
        // its dimensions
        b'd' => show::shape(out, s),
        // its parts, the two sections
        b'p' => {
            show::section(out, s, Side::Top)?;
            show::section(out, s, Side::Bottom)
        }
        // the records of each side from one place up to another
        b'f' => {
            show::records(out, s, Side::Top, a, b)?;
            show::records(out, s, Side::Bottom, a, b)
        }
        // a walk of so many steps
        b'w' => show::walk(out, s, a),
        // the next step after so many terminals
        b'n' => show::step_after(out, s, a),
        // the record at a place inside a section, which is all of the bytes
        b'i' => show::record_in(out, s, a),
        // the gap between two columns: the one before, this one, the range
        b'g' => columns::range(out, low(a), low(b), low(c), low(d)),
        // which columns are members of a set
        b'm' => columns::allow_each(out, a),
        // whether a set goes over a length
        b'o' => columns::name_each(out, a),
        _ => Ok(()),
    }
}

fn main(rt: HostRuntime) -> io::Result<()> {
    // what is longer is cut off
    let mut text = [0; 65536];
    let n = input::read_full(&mut rt.reader(), &mut text)?;
    let mut out = io::writer(&rt);
    cases::each_in_bytes(&text[..n], |command, s| ask(&mut out, s, command))
}
