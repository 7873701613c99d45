// The vertical constraints of an assignment: which net lies over which.
#![tactic(auto)]

ghost use Rattle.std.specs.Prelude.{◌≡◌, ℕ, ◌≤◌, ◌<◌, ◌++◌, length, get_or};
ghost use Rattle.sheet.specs.Sections.{sheet_held};
ghost use Rattle.ends.specs.Pins.{pins_in};
ghost use Rattle.constraints.specs.Constraints.{alone};
ghost use Rattle.constraints.specs.Listed.{net_from, net_at, constrains, constraints_in, constraints_of};

use arrayvec::ArrayVec;
use ends::{PinList, list_nets};
use kind::Kind;
use list::ListedSheet;
use nets::count_pins;

// One net over another in a column.
#[derive(Clone, Copy, Default)]
pub struct Constraint {
    pub over: u16,
    pub under: u16,
}

// Lists the constraints of an assignment beside its sheet, by the top pins in order.
pub fn list_constraints(listed: ListedSheet, found: &mut ArrayVec<Constraint, 64>)
    requires { listed.sections.shape.top ≤ 64 }
    ensures { found.new.items ≡ constraints_of (sheet_held listed.entry.sections) listed.entry.columns.now }
{
    let mut nets = ArrayVec::new();
    list_nets(listed.sections.top, listed.sections.bottom, &mut nets);
    let pins = PinList {
        mark: listed.sections.mark,
        nets: &nets,
        columns: listed.columns,
    };
    let p = listed.sections.shape.top;
    let top = PinList {
        mark: pins.mark,
        nets: &pins.nets[..p],
        columns: &pins.columns[..p],
    };
    let bottom = PinList {
        mark: pins.mark,
        nets: &pins.nets[p..],
        columns: &pins.columns[p..],
    };
    list_over(top, bottom, pins.nets, found);
}

// Of each top pin, the constraint with what is below it, if they constrain each other.
fn list_over(top: PinList, bottom: PinList, nets: &[u16], found: &mut ArrayVec<Constraint, 64>)
    requires { (length top.nets.now ≤ 64) × (length nets.now ≤ 128) }
    ensures { found.new.items ≡ constraints_in nets.now (pins_in top.entry) (net_at (pins_in bottom.entry)) }
{
    let mut row: [u16; 256] = [0; 256];
    put_pins(bottom, &mut row);
    found.clear();
    for (net, column) in top.nets.iter().zip(top.columns) {
        let under = row[*column as usize];
        if constrains(*net, under, nets) {
            found.push(Constraint { over: *net, under });
        }
    }
}

// Puts the nets of a side's pins into their columns.
fn put_pins(pins: PinList, row: &mut [u16; 256])
    ensures { (c : ℕ) → c < 256 → get_or row.new c 0 ≡ net_from (get_or row.old c 0) c (pins_in pins.entry) }
{
    for (net, column) in pins.nets.iter().zip(pins.columns) {
        row[*column as usize] = *net;
    }
}

// Whether these nets on top and below constrain each other; 0 is no net.
fn constrains(over: u16, under: u16, nets: &[u16]) -> bool
    requires { length nets.now ≤ 128 }
    ensures { result ≡ constrains nets.now over under }
{
    under != 0 && over != under && !is_alone(over, nets) && !is_alone(under, nets)
}

// Whether a net is plain and has one pin.
fn is_alone(net: u16, nets: &[u16]) -> bool
    requires { length nets.now ≤ 128 }
    ensures { result ≡ alone nets.now net }
{
    match Kind::from(net) {
        Kind::Plain => count_pins(net, nets) == 1,
        _ => false,
    }
}
