// The lines of an assignment's terminals.
#![tactic(auto)]

ghost use Rattle.std.specs.Prelude.{◌≡◌, ◌+◌, ◌*◌, ◌≤◌, length};
ghost use Rattle.format.specs.Parts.{terminals_in};
ghost use Rattle.cursor.specs.Visits.{visits};
ghost use Rattle.text.specs.Writing.{HasRoom, Writes};
ghost use Rattle.lines.specs.Text.{letter_of, line, lines};

use cursor::Visit;
use format::{Side, Terminals};
use text::Writer;

// Numbers are printed with so many digits at most.
pub const DIGITS: usize = 5;

fn letter(side: Side) -> u8
    ensures { result ≡ letter_of side }
{
    match side {
        Side::Top => b'T',
        Side::Bottom => b'B',
    }
}

// The line of a terminal and its column: side, place, net, column. It has 28 bytes at most.
fn put_line(out: &mut Writer, visit: Visit, column: u8)
    requires { HasRoom out.old 28 }
    ensures wrote { Writes out.old out.new (line visit column) }
    ensures upper_bound { out.new.end ≤ out.old.end + 28 }
{
    let terminal = visit.terminal;
    out.put_byte(letter(visit.side));
    out.put_field(b" ", visit.place, DIGITS);
    out.put_field(b" net ", terminal.net as usize, DIGITS);
    out.put_field(b" col ", column as usize, DIGITS);
    out.put_byte(b'\n');
}

// A line for each terminal of a side's section and its column.
pub fn put_side(out: &mut Writer, side: Side, part: &[u8], columns: &[u8])
    requires { HasRoom out.old (28 * length columns.now) }
    ensures wrote { Writes out.old out.new (lines (visits side 1 (terminals_in part.now)) columns.now) }
    ensures upper_bound { out.new.end ≤ out.old.end + 28 * length columns.now }
{
    for (k, (terminal, column)) in Terminals::new(part).zip(columns).enumerate() {
        let visit = Visit {
            side,
            place: k + 1,
            terminal,
        };
        put_line(out, visit, *column);
    }
}
