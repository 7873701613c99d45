// Compares the library's chains and circles of vertical constraints with a separately written reading of the rule on many small sheets.
#![tactic(auto)]

use std::io::{self, Write};
use tally::Tally;
use trials::Shared;

mod answers;
mod features;
mod sheets;
mod tally;
mod trials;

const SHEETS: u64 = 100000;

// The lists of each sheet.
const LISTS: u8 = 10;

fn try_all<W: Write>(shared: &mut Shared<W>) -> io::Result<()> {
    for n in 0..SHEETS {
        shared.try_sheet(n)?;
    }
    writeln!(shared.out, "{}", shared.tally)
}

fn main(rt: HostRuntime) -> io::Result<()> {
    let mut shared = Shared {
        out: &mut io::writer(&rt),
        tally: Tally::default(),
    };
    try_all(&mut shared)
}
