// Runs every row of the rules' "Sheets with known results" through the library, and prints each answer on a line. The rows
// are the standard input; `cases` says how they are written, and has the commands that build a sheet.
#![tactic(auto)]

use buffers::first;
use cases::{Command, low};
use printing::{Columns, Found, Measurement};
use std::io::{self, Write};
use trailer::TRAILER;

// The columns and the work cells of 64 top terminals on 64 columns, and some behind.
const BYTES: usize = 70;

const CELLS: usize = 274630;

// The searches so far, and how many left a buffer not as the rules say.
#[derive(Clone, Copy, Debug, Default, PartialEq, Eq)]
struct Tally {
    searches: u64,
    differ: u64,
}

// A search in marked buffers; whether it left them as the rules say.
fn find<W: Write>(out: &mut W, s: &[u8], command: Command) -> io::Result<bool> {
    let [pins, needed, bytes, cells, _, _] = command.numbers;
    let mut columns = [0; BYTES];
    let mut work = [0; CELLS];
    buffers::mark(&mut columns);
    buffers::mark(&mut work);
    let lent = first(&mut columns, bytes as usize);
    let answer = search::search(s, lent, first(&mut work, cells as usize));
    let found = Found(answer, first(&mut columns, pins as usize));
    out.write_all(command.name)?;
    write!(out, ": {found}")?;
    // a case may ask for more columns than there are bytes: those read 0
    if answer.is_ok() {
        for _ in BYTES as u64..pins {
            write!(out, " 0")?;
        }
    }
    writeln!(out)?;
    Ok(buffers::left(answer, pins as usize, needed as usize, &columns, &work))
}

// The measurement of four columns. Only forms of sheet A are measured, so the line names it, and its mark if that is CQ; a sheet that is
// shorter than a trailer has no mark.
fn measure<W: Write>(out: &mut W, s: &[u8], command: Command) -> io::Result<()> {
    let [a, b, c, d, _, _] = command.numbers;
    let list = [a, b, c, d].map(low);
    let name = if TRAILER <= s.len() && s.ends_with(b"CQ") {
        "A with the mark CQ"
    } else {
        "A"
    };
    let measured = Measurement(measure::measure(s, &list));
    writeln!(out, "{name} measured at{}: {measured}", Columns(&list))
}

// Does what a command asks of the sheet.
fn ask<W: Write>(out: &mut W, s: &[u8], command: Command, tally: &mut Tally) -> io::Result<()> {
    // each command has arguments of its own, so a `match` is plainer than a table of closures
    match command.word {
        b'c' => printing::verdict_in_bytes(out, command.name, "accepted", s)?,
        b'm' => measure(out, s, command)?,
        b'f' => {
            let left = find(out, s, command)?;
            tally.searches = tally.searches.wrapping_add(1);
            tally.differ = tally.differ.wrapping_add(!left as u64);
        }
        _ => {}
    }
    Ok(())
}

fn run<W: Write>(out: &mut W, text: &[u8]) -> io::Result<()> {
    let mut tally = Tally::default();
    cases::each_in_bytes(text, |command, s| ask(out, s, command, &mut tally))?;
    writeln!(
        out,
        "{} searches, {} buffers differ from the rules",
        tally.searches, tally.differ
    )
}

fn main(rt: HostRuntime) -> io::Result<()> {
    // what is longer is cut off
    let mut text = [0; 4096];
    let n = input::read_full(&mut rt.reader(), &mut text)?;
    run(&mut io::writer(&rt), &text[..n])
}
