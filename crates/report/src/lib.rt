// The text that the program prints, as functions on slices.
#![tactic(auto)]

ghost use Rattle.std.specs.Prelude.{◌≡◌, ◌+◌, ◌*◌, ◌≤◌, length, take};
ghost use Rattle.format.specs.Parts.{terminals_in};
ghost use Rattle.sheet.specs.Parts.{shape_of};
ghost use Rattle.sheet.specs.Sections.{sheet_held};
ghost use Rattle.cursor.specs.Visits.{all_visits};
ghost use Rattle.text.specs.Writing.{HasRoom, Writes};
ghost use Rattle.report.specs.Printed.{refusal, headed, printed, Prints};
ghost use Rattle.lines.specs.Text.{lines};
ghost use Rattle.report.specs.Writing.{visits_of};

use format::Side;
use lines::{DIGITS, put_side};
use refusals::Reason;
use sheet::Sections;
use text::Writer;

// Room for every text: the line of the density, and 128 lines of at most 28 bytes.
pub const ROOM: usize = 4096;

// Writes what the program prints of its input to the start of `out`; gives the text's length.
pub fn print(input: &[u8], out: &mut [u8; ROOM]) -> usize
    ensures { Prints input.now out.old out.new result }
{
    let mut writer = Writer { out, end: 0 };
    put_text(&mut writer, input);
    writer.end
}

// The text of an input. Both stay parameters here and below: of a type of both, each function would have to say too that the input is the
// same.
fn put_text(out: &mut Writer, input: &[u8])
    requires { HasRoom out.old 3598 }
    ensures wrote { Writes out.old out.new (printed input.now) }
    ensures upper_bound { out.new.end ≤ out.old.end + 3598 }
{
    // the program's own refusal, of more than the largest sheet: no function of the library gives it, so no enum has it
    if 1548 < input.len() {
        put_refusal(out, 15);
        return;
    }
    let mut columns = [0u8; 128];
    let mut work = [0u16; 30000];
    match search::search(input, &mut columns, &mut work) {
        Ok(density) => put_result(out, input, density, &columns),
        Err(why) => put_refusal(out, why.number() as usize),
    }
}

// The single line of a refusal.
fn put_refusal(out: &mut Writer, number: usize)
    requires { HasRoom out.old 14 }
    ensures wrote { Writes out.old out.new (refusal number) }
    ensures upper_bound { out.new.end ≤ out.old.end + 14 }
{
    out.put_field(b"refused ", number, DIGITS);
    out.put_byte(b'\n');
}

// The line of the density, then a line for each terminal.
fn put_result(out: &mut Writer, input: &[u8], density: u8, columns: &[u8])
    requires input_in_bounds { (shape_of input.now).pins ≤ length columns.now }
    requires columns_in_bounds { HasRoom out.old (14 + 28 * length columns.now) }
    ensures wrote { Writes out.old out.new
        (headed density (lines (visits_of input.now) (take (shape_of input.now).pins columns.now))) }
    ensures upper_bound { out.new.end ≤ out.old.end + 14 + 28 * length columns.now }
{
    out.put_field(b"density ", density as usize, DIGITS);
    out.put_byte(b'\n');
    match sheet::open(input) {
        Ok(layout) => put_sides(out, layout.sections(input), &columns[..layout.shape.pins]),
        Err(_) => {}
    }
}

// A line for each terminal of a sheet's sections, top then bottom.
fn put_sides(out: &mut Writer, sections: Sections, columns: &[u8])
    requires { (sections.shape.top ≡ length (terminals_in sections.top.now)) × (sections.shape.top ≤ length columns.now)
        × HasRoom out.old (28 * length columns.now) }
    ensures wrote { Writes out.old out.new (lines (all_visits (sheet_held sections.entry)) columns.now) }
    ensures upper_bound { out.new.end ≤ out.old.end + 28 * length columns.now }
{
    let p = sections.shape.top;
    put_side(out, Side::Top, sections.top, &columns[..p]);
    put_side(out, Side::Bottom, sections.bottom, &columns[p..]);
}
