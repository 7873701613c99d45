// Walks sheets by a reader, from the first step to two steps past the end, and prints what each step finds.
#![tactic(auto)]

use reader::Reader;
use show::Found;
use std::io::{self, Write};

mod show;

// A new reader, and as many steps of it as `steps` says.
fn read<W: Write>(out: &mut W, s: &[u8], steps: usize) -> io::Result<()> {
    let mut reader = Reader::new(s);
    for _ in 0..steps {
        writeln!(out, "  {}", Found(reader.next()))?;
    }
    Ok(())
}

// A sheet: whether it is sound, its steps, and terminal number 1, from 0, by the call with plain parameters.
fn walk<W: Write>(out: &mut W, name: &[u8], s: &[u8], steps: usize) -> io::Result<()> {
    printing::verdict_in_bytes(out, name, "sound", s)?;
    read(out, s, steps)?;
    let found = reader::read_at(s, 1).map(|(visit, _)| visit);
    writeln!(out, "  number 1:  {}", Found(found))
}

fn main(rt: HostRuntime) -> io::Result<()> {
    let mut out = io::writer(&rt);
    // two terminals a side
    walk(
        &mut out,
        b"sheet A",
        b"\x01\x00\x00\x00\x07\x00\x00\x00\x00\x00\x00\x00\
          \x02\x00\x01\xff\x07\x00\x00\x00\x00\x00\x00\x00\
          \x02\x00\x00\x00\x07\x00\x00\x00\x00\x00\x00\x00\
          \x01\x00\x01\xff\x07\x00\x00\x00\x00\x00\x00\x00\
          \x00\x00\x02\x00\x18\x00\x02\x00\x03\x00CP",
        6,
    )?;
    // the file has B 1, T 1, T 2; the walk goes T 1, T 2, B 1
    walk(
        &mut out,
        b"bottom section first, with the mark CQ",
        b"\x09\x00\x00\x00\x01\x00\x00\x00\x00\x00\x00\x80\
          \x07\x00\x00\x00\x06\x00\x00\x00\x00\x00\x00\x00\
          \x2c\x01\x02\x04\x00\x01\x00\x00\x00\x00\x00\x00\
          \x0c\x00\x02\x00\x00\x00\x01\x00\x40\x00CQ",
        5,
    )?;
    // one bottom terminal, with the empty set
    walk(
        &mut out,
        b"no top terminals",
        b"\x05\x00\x00\x00\x00\x00\x00\x00\x00\x00\x00\x00\
          \x00\x00\x00\x00\x00\x00\x01\x00\x01\x00CP",
        3,
    )?;
    // only the last terminal breaks a rule
    walk(
        &mut out,
        b"sheet A with column 4 in its last set",
        b"\x01\x00\x00\x00\x07\x00\x00\x00\x00\x00\x00\x00\
          \x02\x00\x01\xff\x07\x00\x00\x00\x00\x00\x00\x00\
          \x02\x00\x00\x00\x07\x00\x00\x00\x00\x00\x00\x00\
          \x01\x00\x01\xff\x0f\x00\x00\x00\x00\x00\x00\x00\
          \x00\x00\x02\x00\x18\x00\x02\x00\x03\x00CP",
        2,
    )
}
