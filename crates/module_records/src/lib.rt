// The terminals of a side of modules, written as records.
#![tactic(auto)]

ghost use Rattle.std.specs.Prelude.{◌≡◌, ◌+◌, ◌-◌, ◌*◌, ◌^◌, ◌≤◌, ◌<◌, length};
ghost use Rattle.text.specs.Writing.{HasRoom, Writes};
ghost use Rattle.terminal.specs.Terminal.{record_of};
ghost use Rattle.format.specs.Format.{record_size};
ghost use Rattle.encode.specs.Encode.{section_bytes};
ghost use Rattle.modules.specs.Modules.{pin_count, gap_of, last_offset, pin_terminal, inner_terminals, module_terminals, side_terminals};
ghost use Rattle.modules.specs.Modules.{first_least, first_greatest};
ghost use Rattle.modules.specs.Bytes.{modules_in};
ghost use Rattle.modules.specs.Left.{pins_left, module_left};
ghost use Rattle.module_records.specs.Writable.{Later, Writable, AllWritable};
ghost use Rattle.module_records.specs.Behind.{is_first, gap_behind};

use encode::put_record;
use modules::{Module, Modules, Pin, Pins};
use terminal::Record;
use text::Writer;

// The record of a pin: the module's set moved right by the pin's offset less 1.
fn record_of(pin: Pin, edges: u64, least: u8, greatest: u8) -> Record
    requires { (1 ≤ pin.offset) × (pin.offset ≤ 64) × (edges * 2 ^ (pin.offset - 1) < 2 ^ 64) }
    ensures { result ≡ record_of (pin_terminal edges least greatest pin) }
{
    Record {
        net: pin.net,
        least,
        greatest,
        allowed: edges << (pin.offset - 1),
    }
}

// The records of a module's pins behind one at `before`, each at its distance from the one before; and the gap right of the last.
fn put_inner(out: &mut Writer, pins: Pins, width: u8, edges: u64, before: u8) -> u8
    requires { HasRoom out.old (record_size * length (pins_left pins))
        × Later width edges before (pins_left pins) }
    ensures records { Writes out.old out.new (section_bytes (inner_terminals edges before (pins_left pins.entry))) }
    ensures gap { result ≡ width - last_offset before (pins_left pins.entry) }
{
    let mut last = before;
    for pin in pins {
        let distance = pin.offset - last;
        put_record(out, record_of(pin, edges, distance, distance));
        last = pin.offset;
    }
    width - last
}

// The least distance of a module's first pin: the gap that the module before leaves, if there is one, and the pin's own offset.
fn first_least(gap: Option<u8>, offset: u8) -> u8
    requires { gap_behind gap + offset < 256 }
    ensures { result ≡ first_least (is_first gap) (gap_behind gap) offset }
{
    match gap {
        None => 0,
        Some(gap) => gap + offset,
    }
}

fn first_greatest(gap: Option<u8>) -> u8
    ensures { result ≡ first_greatest (is_first gap) }
{
    match gap {
        None => 0,
        Some(_) => 255,
    }
}

// The records of one module, behind the gap that the module before leaves, if there is one; and the gap that it leaves.
fn put_module(out: &mut Writer, m: Module, gap: Option<u8>) -> u8
    requires { Writable (module_left m) × (gap_behind gap ≤ 64)
        × HasRoom out.old (record_size * length (pins_left m.pins)) }
    ensures records { Writes out.old out.new (section_bytes (module_terminals (is_first gap) (gap_behind gap) (module_left m.entry))) }
    ensures gap { result ≡ gap_of (module_left m.entry) }
{
    let mut pins = m.pins;
    let Some(pin) = pins.next() else {
        return m.width;
    };
    let least = first_least(gap, pin.offset);
    let greatest = first_greatest(gap);
    put_record(out, record_of(pin, m.edges, least, greatest));
    put_inner(out, pins, m.width, m.edges, pin.offset)
}

// The records of a side, through a writer of this function's own: the compiler keeps its place in a register, where it would store that of
// `out` anew behind each part of a record.
pub fn put_modules(out: &mut Writer, side: &[u8])
    requires { AllWritable (modules_in side.now)
        × HasRoom out.old (record_size * pin_count (modules_in side.now)) }
    ensures { Writes out.old out.new (section_bytes (side_terminals (modules_in side.now))) }
{
    let mut records = Writer {
        out: &mut *out.out,
        end: out.end,
    };
    let mut gap: Option<u8> = None;
    for m in Modules::new(side) {
        gap = Some(put_module(&mut records, m, gap));
    }
    out.end = records.end;
}
