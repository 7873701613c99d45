// Cases as text, in bytes of any kind. A command is a word, which counts by its first letter, then numbers, then a name behind a colon. A
// semicolon or a line's end closes it; one that starts with # is a remark, which only a line's end closes.
#![tactic(auto)]

use fixtures::{Page, Plan, SheetA};
use mark::Mark;
use std::io;
use terminal::Record;
use trailer::{Part, Trailer};

// A command's word by its first letter, its first six numbers, of which those that are missing are 0, and its name. The word stays a
// letter: each program has commands of its own beside those that build a sheet.
#[derive(Clone, Copy)]
pub struct Command<'a> {
    pub word: u8,
    pub numbers: [u64; 6],
    pub name: &'a [u8],
}

// The number that a run of digits says. What does not fit is lost.
fn number(digits: &[u8]) -> u64 {
    digits.iter().fold(0u64, |n, digit| {
        n.wrapping_mul(10)
            .wrapping_add(digit.wrapping_sub(b'0') as u64)
    })
}

// The first six runs of digits, wherever they stand.
fn numbers(text: &[u8]) -> [u64; 6] {
    let runs = text
        .split(|b| !b.is_ascii_digit())
        .filter(|run| !run.is_empty());
    let mut numbers = [0; 6];
    for (n, digits) in numbers.iter_mut().zip(runs) {
        *n = number(digits);
    }
    numbers
}

// The command that a text starts with, and what is left of the text behind it.
fn read(text: &[u8]) -> (Command<'_>, &[u8]) {
    let word = text.first().copied().unwrap_or(0);
    let end = text
        .iter()
        .position(|b| *b == b'\n' || (*b == b';' && word != b'#'))
        .unwrap_or(text.len());
    let (command, rest) = text.split_at(end);
    let colon = command
        .iter()
        .position(|b| *b == b':')
        .unwrap_or(command.len());
    let (front, named) = command.split_at(colon);
    // a semicolon has a space behind it, as a colon has
    let past = if rest.starts_with(b";") { 2 } else { 1 };
    let command = Command {
        word,
        numbers: numbers(front),
        name: named.get(2..).unwrap_or(&[]),
    };
    (command, rest.get(past..).unwrap_or(&[]))
}

// Builds a page by a text's commands, one after the other, and hands each on with the page's sheet, until that fails.
pub fn each<F: FnMut(Command<'_>, &[u8]) -> io::Result<()>>(text: &str, ask: F) -> io::Result<()>
    requires { F.IsAlwaysCallable ask }
{
    each_in_bytes(text.as_bytes(), ask)
}

// The same of a text in bytes of any kind.
pub fn each_in_bytes<F: FnMut(Command<'_>, &[u8]) -> io::Result<()>>(
    text: &[u8],
    mut ask: F,
) -> io::Result<()>
    requires { F.IsAlwaysCallable ask }
{
    let mut page = Page::new();
    let mut left = text;
    // each command takes a byte at the least
    for _ in 0..text.len() {
        if left.is_empty() {
            break;
        }
        let (command, rest) = read(left);
        build(&mut page, command);
        ask(command, page.sheet())?;
        left = rest;
    }
    Ok(())
}

// The lowest byte of a number.
pub fn low(n: u64) -> u8 {
    (n % 256) as u8
}

// Does what a command says to the page. A command that builds nothing changes nothing.
fn build(page: &mut Page, command: Command) {
    let [a, b, c, d, e, f] = command.numbers;
    let at = a as usize;
    let mark = if e == 1 { Mark::Cq } else { Mark::Cp };
    let plan = Plan {
        columns: low(a),
        top: low(b),
        bottom: low(c),
        bottom_first: d == 1,
        mark,
    };
    // each command has arguments of its own, so a `match` is plainer than a table of closures
    match command.word {
        // sheet A: columns, set, greatest distance, 1 for the bottom section first, 1 for the mark CQ
        b'A' => page.put_sheet_a(SheetA {
            columns: low(a),
            set: b,
            greatest: low(c),
            bottom_first: d == 1,
            mark,
        }),
        // a usual sheet: columns, p, q, 1 for the bottom section first, 1 for the mark CQ
        b's' => page.put_usual(plan),
        // the end of a sheet, by the same numbers
        b'e' => page.close(plan),
        // a record: its number from 0, and its fields
        b'r' => page.put_record(
            at,
            Record {
                net: (b % 65536) as u16,
                least: low(c),
                greatest: low(d),
                allowed: e,
            },
        ),
        // a trailer with the mark CP: where it starts, both offsets and counts, columns
        b't' => page.put_trailer(
            at,
            Trailer {
                top: Part {
                    at: b as usize,
                    count: c as usize,
                },
                bottom: Part {
                    at: d as usize,
                    count: e as usize,
                },
                columns: f as usize,
            },
            Mark::Cp,
        ),
        // two bytes: where they start, and their values; the second is the page's first where the numbers of places wrap
        b'b' => {
            page.put(at, &[low(b)]);
            page.put(at.wrapping_add(1), &[low(c)]);
        }
        // the sheet's length
        b'l' => page.cut(at),
        _ => {}
    }
}

#[cfg(test)]
mod tests {
    use super::*;
    use std::io::Write;

    // Each command's word and name, and how many bytes the sheet has behind it.
    #[test]
    fn each_command_of_a_text(rt: HostRuntime) -> io::Result<()> {
        let mut out = Vec::new(rt.alloc());
        each(
            "A 3 7 255; check: a sheet\n# no sheet\nlength 5",
            |command, s| {
                out.write_all(&[command.word])?;
                out.write_all(command.name)?;
                writeln!(out, " {}", s.len())
            },
        )?;
        assert_eq!(rt;
            out.as_slice(),
            b"A 60\nca sheet 60\n# 60\nl 5\n".as_slice()
        );
        Ok(())
    }
}
