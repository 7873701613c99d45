// The sheet of two sides of modules.
#![tactic(auto)]

ghost use Rattle.std.specs.Prelude.{◌≡◌, ◌≤◌, length};
ghost use Rattle.text.specs.Writing.{Wrote};
ghost use Rattle.encode.specs.Encode.{sheet_bytes, sheet_size};
ghost use Rattle.modules.specs.Modules.{pin_count, module_sheet};
ghost use Rattle.modules.specs.Bytes.{modules_in};
ghost use Rattle.module_records.specs.Writable.{AllWritable};
ghost use Rattle.module_sheet.specs.Answer.{answer_of, Makes};

use encode::put_trailer;
use format::RECORD;
use made::{Made, ModuleRefusal};
use mark::Mark;
use module_check::{Tests, check_modules, combine};
use module_records::put_modules;
use refusals::Refusal;
use text::Writer;
use trailer::{Part, TRAILER, Trailer};

// 16, 17, 4, 6 and 9 in turn, or the length of the sheet: of the tests of both sides and the number of pins of each.
#[tactic(auto, unfolding(crate::specs::Answer::answer_of))]
fn answer(all: Tests, p: usize, q: usize, room: usize) -> Made
    ensures { result ≡ answer_of all p q room }
{
    if !all.valid {
        return Err(ModuleRefusal::Module);
    }
    if !all.within {
        return Err(ModuleRefusal::Edge);
    }
    if 64 < p || 64 < q {
        return Err(ModuleRefusal::Sheet(Refusal::Count));
    }
    if !all.named {
        return Err(ModuleRefusal::Sheet(Refusal::Net));
    }
    let size = RECORD * (p + q) + TRAILER;
    if room < size {
        return Err(ModuleRefusal::SheetBuffer);
    }
    Ok(size)
}

// A side of modules and the number of its pins.
#[derive(Clone, Copy)]
struct CountedSide<'a> {
    bytes: &'a [u8],
    pins: usize,
    ghost counted: { pins ≡ pin_count (modules_in bytes.now) },
}

// Writes the sheet: the top section, the bottom section, the trailer.
fn put_sheet(out: &mut [u8], columns: usize, top: CountedSide, bottom: CountedSide) -> usize
    requires { AllWritable (modules_in top.bytes.now) × AllWritable (modules_in bottom.bytes.now)
        × (top.pins ≤ 64) × (sheet_size top.pins bottom.pins ≤ length out.old) }
    ensures { Wrote out.old 0
        (sheet_bytes (module_sheet columns (modules_in top.entry.bytes.now) (modules_in bottom.entry.bytes.now))) out.new result }
{
    let mut writer = Writer { out, end: 0 };
    put_modules(&mut writer, top.bytes);
    put_modules(&mut writer, bottom.bytes);
    let t = Trailer {
        top: Part {
            at: 0,
            count: top.pins,
        },
        bottom: Part {
            at: RECORD * top.pins,
            count: bottom.pins,
        },
        columns,
    };
    put_trailer(&mut writer, t, Mark::Cp);
    writer.end
}

// Turns two sides of modules into the sheet of a channel with so many columns.
pub fn make(columns: usize, top: &[u8], bottom: &[u8], sheet: &mut [u8]) -> Made
    ensures { Makes columns top.now bottom.now sheet.old sheet.new result }
{
    if columns == 0 || 64 < columns {
        return Err(ModuleRefusal::Sheet(Refusal::Length));
    }
    let over = check_modules(top, columns);
    let under = check_modules(bottom, columns);
    let size = answer(combine(over, under), over.pins, under.pins, sheet.len())?;
    let tops = CountedSide {
        bytes: top,
        pins: over.pins,
    };
    let bottoms = CountedSide {
        bytes: bottom,
        pins: under.pins,
    };
    put_sheet(sheet, columns, tops, bottoms);
    Ok(size)
}
