// What one terminal's set and distance pair say of columns.
ghost use Rattle.std.specs.Prelude.{◌≡◌};
ghost use Rattle.channel.specs.Sheet.{names_above};
ghost use Rattle.channel.specs.Assignment.{allows as allowed};
ghost use Rattle.channel.specs.Distance.{amount};
ghost use Rattle.terminal.specs.Amount.{out_of_range};

// Whether a set names a column above `columns`: the test behind 8.
pub fn names_above(set: u64, columns: usize) -> bool
    ensures { result ≡ names_above columns set }
{
    if 64 <= columns {
        return false;
    }
    set >> columns != 0
}

// Whether a set allows a column.
pub fn allows(set: u64, column: u8) -> bool
    ensures { result ≡ allowed set column }
{
    if column == 0 || 64 < column {
        return false;
    }
    (set >> (column - 1)) % 2 == 1
}

// By how many columns the distance from the column before to this one is out of range: none in range, negative where it is too short,
// which is tried first, positive where it is too long. Every distance is decided here.
pub fn amount(before: u8, column: u8, least: u8, greatest: u8) -> Option<i16>
    ensures { result ≡ out_of_range (amount least greatest before column) }
{
    let distance = column as i16 - before as i16;
    if distance < least as i16 {
        return Some(distance - least as i16);
    }
    if distance > greatest as i16 {
        return Some(distance - greatest as i16);
    }
    None
}
