// A sheet's numbers, records and trailer, written into a buffer.
#![tactic(auto)]

ghost use Rattle.text.specs.Writing.{HasRoom, Writes};
ghost use Rattle.terminal.specs.Terminal.{terminal_of};
ghost use Rattle.trailer.specs.Trailer.{trailer_size};
ghost use Rattle.format.specs.Format.{record_size};
ghost use Rattle.encode.specs.Encode.{bytes, record_bytes, part_bytes, trailer_bytes};

use mark::Mark;
use terminal::Record;
use text::Writer;
use trailer::{Part, Trailer};

// A number in n bytes, the lowest first. By hand, since the first n of `to_le_bytes` would ask n ≤ 8 of every caller.
pub fn put_number(out: &mut Writer, n: usize, value: u64)
    requires { HasRoom out.old n }
    ensures { Writes out.old out.new (bytes n value) }
{
    let mut rest = value;
    for i in 0..n {
        out.put_byte((rest % 256) as u8);
        rest /= 256;
    }
}

// A terminal's record. Its numbers by `to_le_bytes`, which the compiler stores at once, where it stores `put_number`'s bytes one by one.
pub fn put_record(out: &mut Writer, r: Record)
    requires { HasRoom out.old record_size }
    ensures { Writes out.old out.new (record_bytes (terminal_of r)) }
{
    out.put_text(&r.net.to_le_bytes());
    out.put_byte(r.least);
    out.put_byte(r.greatest);
    out.put_text(&r.allowed.to_le_bytes());
}

// Where a section stands.
fn put_part(out: &mut Writer, part: Part)
    requires { HasRoom out.old 4 }
    ensures { Writes out.old out.new (part_bytes part) }
{
    put_number(out, 2, part.at as u64);
    put_number(out, 2, part.count as u64);
}

// The trailer, with the mark at its end.
pub fn put_trailer(out: &mut Writer, t: Trailer, mark: Mark)
    requires { HasRoom out.old trailer_size }
    ensures { Writes out.old out.new (trailer_bytes t mark) }
{
    put_part(out, t.top);
    put_part(out, t.bottom);
    put_number(out, 2, t.columns as u64);
    out.put_text(mark.letters());
}
