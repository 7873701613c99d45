// What 16, 17, 4 and 6 ask of one side of modules.
#![tactic(auto)]

ghost use Rattle.std.specs.Prelude.{◌≡◌, ◌&&◌, ◌+◌, ◌-◌, ◌*◌, ◌^◌, ◌≤◌, ◌<◌, length};
ghost use Rattle.modules.specs.Bytes.{modules_in};
ghost use Rattle.modules.specs.Left.{pins_left, module_left};
ghost use Rattle.module_check.specs.Tests.{pin_tests_of, module_tests, combined, tests_of};

use modules::{Module, Modules, Pins};
use terminal::names_above;

// What 16, 17 and 6 ask of a side: its modules are valid, within the channel and named; and the number of its pins.
#[derive(Clone, Copy)]
pub struct Tests {
    pub pins: usize,
    pub valid: bool,
    pub within: bool,
    pub named: bool,
}

// The tests of the pins of one module.
#[derive(Clone, Copy)]
struct PinTests {
    rising: bool,
    named: bool,
}

// Whether the offsets of a module's pins rise within its width, and whether all its nets are named.
fn check_pins(pins: Pins, width: u8) -> PinTests
    ensures { result ≡ pin_tests_of width (pins_left pins.entry) }
{
    let mut before = 0u8;
    let mut rising = true;
    let mut named = true;
    for pin in pins {
        rising &= before < pin.offset;
        named &= pin.net != 0;
        before = pin.offset;
    }
    PinTests {
        rising: rising && before <= width,
        named,
    }
}

// The bound of the columns is a clause here and below: a type of its own would be asked of every caller.

// The last left edge at which a module of this width lies in the channel; 0 where there is none, since `names_above` 0 then asks for any
// edge at all, as an option would be made to.
fn last_edge(columns: usize, width: usize) -> usize
    requires { columns ≤ 64 }
    ensures { result ≡ columns + 1 - width }
{
    (columns + 1).saturating_sub(width)
}

// The tests of one module.
fn check_module(m: Module, columns: usize) -> Tests
    requires { columns ≤ 64 }
    ensures { result ≡ module_tests columns (module_left m.entry) }
{
    let count = m.pins.len();
    let pins = check_pins(m.pins, m.width);
    let wide = (1 <= m.width) & (m.width <= 64);
    let some = (1 <= count) & pins.rising;
    let beyond = names_above(m.edges, last_edge(columns, m.width as usize));
    Tests {
        pins: count,
        valid: wide & some,
        within: !beyond,
        named: pins.named,
    }
}

// The tests of some modules and of others.
pub fn combine(a: Tests, b: Tests) -> Tests
    requires { a.pins + b.pins < 2 ^ 64 }
    ensures { result ≡ combined a b }
{
    Tests {
        pins: a.pins + b.pins,
        valid: a.valid && b.valid,
        within: a.within && b.within,
        named: a.named && b.named,
    }
}

// The tests of a side in a channel of so many columns.
pub fn check_modules(side: &[u8], columns: usize) -> Tests
    requires { columns ≤ 64 }
    ensures { (result ≡ tests_of columns (modules_in side.now)) × (result.pins ≤ length side.now) }
{
    let mut all = Tests {
        pins: 0,
        valid: true,
        within: true,
        named: true,
    };
    let mut count = 0usize;
    for m in Modules::new(side) {
        all = combine(all, check_module(m, columns));
        count += 1;
    }
    Tests {
        valid: all.valid & (count <= 16),
        ..all
    }
}
