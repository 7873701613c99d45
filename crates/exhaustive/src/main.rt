// Compares the library's search with a separately written exhaustive one on many small sheets, and its measurements
// with the program's own reading of the rules.
#![tactic(auto)]

use measures::KINDS;
use std::io::{self, Write};
use tally::Tally;
use trials::Shared;

mod measures;
mod tally;
mod trials;

const SHEETS: u64 = 100000;

const MEASUREMENTS: u64 = SHEETS * KINDS.len() as u64;

fn compare_all<W: Write>(shared: &mut Shared<W>) -> io::Result<()> {
    let mut tally = Tally::default();
    for n in 0..SHEETS {
        let shown = tally.wrong < 5;
        tally = tally.plus(trials::try_sheet(shared, n, shown)?);
    }
    writeln!(shared.out, "{tally}")
}

fn main(rt: HostRuntime) -> io::Result<()> {
    // 5 * 5 * 65 * 65 cells for the largest sheet, and some behind
    let mut work = [0u16; 105640];
    let mut shared = Shared {
        out: &mut io::writer(&rt),
        work: &mut work,
    };
    compare_all(&mut shared)
}
