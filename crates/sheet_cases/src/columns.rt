// What a terminal's set and distance pair say of columns.
use printing::yes_or_no;
use std::io::{self, Write};

// The columns that are asked of each set.
const COLUMNS: [u8; 8] = [0, 1, 2, 63, 64, 65, 66, 255];

const LENGTHS: [usize; 8] = [0, 1, 2, 62, 63, 64, 65, usize::MAX];

// The amount of the distance from the column before; 0 in range, as C gets it.
pub fn range<W: Write>(
    out: &mut W,
    before: u8,
    column: u8,
    least: u8,
    greatest: u8,
) -> io::Result<()> {
    let amount = terminal::amount(before, column, least, greatest).unwrap_or(0);
    writeln!(
        out,
        "from {before} to {column} within {least} to {greatest}: {amount}"
    )
}

pub fn allow_each<W: Write>(out: &mut W, set: u64) -> io::Result<()> {
    for column in COLUMNS {
        let allows = yes_or_no(terminal::allows(set, column));
        writeln!(out, "set 0x{set:x} allows {column}: {allows}")?;
    }
    Ok(())
}

pub fn name_each<W: Write>(out: &mut W, set: u64) -> io::Result<()> {
    for columns in LENGTHS {
        let names = yes_or_no(terminal::names_above(set, columns));
        writeln!(out, "set 0x{set:x} names one above {columns}: {names}")?;
    }
    Ok(())
}
