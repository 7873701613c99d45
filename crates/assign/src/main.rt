// Reads one sheet from standard input and prints its best assignment, or why there is none.
#![tactic(auto)]

use std::io::{self, Write};

fn main(rt: HostRuntime) -> io::Result<()> {
    // one byte more than the longest sheet, so that a longer input shows
    let mut bytes = [0u8; 1549];
    let n = input::read_full(&mut rt.reader(), &mut bytes)?;
    let mut text = [0u8; report::ROOM];
    let k = report::print(&bytes[..n], &mut text);
    io::writer(&rt).write_all(&text[..k])
}
