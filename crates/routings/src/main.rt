// Compares the library's tracks with a separately written reading of the rule on many small sheets.
#![tactic(auto)]

use std::io::{self, Write};
use tally::Tally;
use trials::Shared;

mod answers;
mod tally;
mod trials;

const SHEETS: u64 = 30000;

// Every fifth sheet of `drawn` is taken, so that about a third are regular ones.
const STEP: u64 = 5;

// The lists of each sheet.
const LISTS: u8 = 10;

fn route_all<W: Write>(shared: &mut Shared<W>) -> io::Result<()> {
    for n in 0..SHEETS {
        shared.try_sheet(STEP * n)?;
    }
    writeln!(shared.out, "{}", shared.tally)
}

fn main(rt: HostRuntime) -> io::Result<()> {
    let mut shared = Shared {
        out: &mut io::writer(&rt),
        tally: Tally::default(),
    };
    route_all(&mut shared)
}
