// The load layer: how many nets cross a column, for every cut of the two sides. A cut (i, j) is a column with i top
// and j bottom pins at or left of it. From one cut to the next a pin more changes the nets that are cut by one at most, which two numbers
// of the pin say.
#![tactic(auto)]

ghost use Rattle.std.specs.Prelude.{◌≡◌, ℕ, ◌+◌, ◌≤◌, ◌<◌, length, take, drop};
ghost use Rattle.format.specs.Parts.{terminals_in};
ghost use Rattle.cut.specs.Counts.{cut};
ghost use Rattle.arrays.specs.Loads.{load_rows};
ghost use Rattle.load.specs.Cuts.{CutLoads, LoadsRead, Written, Listed};
ghost use Rattle.nets.specs.Nets.{nets_in};

use arrays::{Loads, put_loads};
use arrayvec::ArrayVec;
use cut::{first_cut, loads_of, lone_load, next_cut};
use mark::Mark;
use nets::Nets;
use places::{PinPlaces, list_pins};

// The pins of the two sides, with their numbers, and the nets that they are of.
#[derive(Clone, Copy)]
struct Pins<'a> {
    mark: Mark,
    tops: &'a [u16],
    bottoms: &'a [u16],
    top_pins: &'a [PinPlaces],
    bottom_pins: &'a [PinPlaces],
    ghost listed: { Listed mark tops.now bottoms.now top_pins.now bottom_pins.now },
}

impl Pins<'_> {
    // Puts the loads of the cut (i, j) into the table.
    fn write_cell(self, i: usize, j: usize, l: Loads, loads: &mut [u8])
        requires { let s = self in
            (i ≤ length s.tops.now) × (j ≤ length s.bottoms.now) × CutLoads s.mark s.tops.now s.bottoms.now i j l
            × (load_rows (length s.tops.now + 1) ≤ length loads.old) }
        ensures { let s = self.entry in
            Written s.mark s.tops.now s.bottoms.now loads.old loads.new (λ (x y : ℕ). (x ≡ i) × (y ≡ j)) }
    {
        put_loads(loads, i, j, l);
    }

    // Puts the loads of all cuts with no top pin into the table, from the cut left of all pins.
    fn write_first(self, first: u8, loads: &mut [u8])
        requires { (first ≡ cut self.tops.now self.bottoms.now 0 0) × (load_rows (length self.tops.now + 1) ≤ length loads.old) }
        ensures { let s = self.entry in
            Written s.mark s.tops.now s.bottoms.now loads.old loads.new
            (λ (x y : ℕ). (x ≡ 0) × (y < length s.bottoms.now + 1)) }
    {
        self.write_cell(0, 0, Loads::default(), loads);
        let mut cut = first;
        for (j, pin) in self.bottom_pins.iter().enumerate() {
            cut = next_cut(cut, *pin, 0);
            let bottom = lone_load(cut, *pin, 0);
            let l = Loads {
                top: 0,
                bottom,
                both: 0,
            };
            self.write_cell(0, j + 1, l, loads);
        }
    }

    // Puts the loads of all cuts with the pin at index i as their last top pin into the table, from the cut with no bottom pin.
    fn write_row(self, i: usize, first: u8, loads: &mut [u8])
        requires { let s = self in (i < length s.tops.now) × (first ≡ cut s.tops.now s.bottoms.now (i + 1) 0)
            × (load_rows (length s.tops.now + 1) ≤ length loads.old) }
        ensures { let s = self.entry in
            Written s.mark s.tops.now s.bottoms.now loads.old loads.new
            (λ (x y : ℕ). (x ≡ i + 1) × (y < length s.bottoms.now + 1)) }
    {
        let top = self.top_pins[i];
        let l = Loads {
            top: lone_load(first, top, 0),
            bottom: 0,
            both: 0,
        };
        self.write_cell(i + 1, 0, l, loads);
        let mut cut = first;
        for (j, pin) in self.bottom_pins.iter().enumerate() {
            cut = next_cut(cut, *pin, i as u8 + 1);
            let l = loads_of(cut, top, *pin, i as u8 + 1, j as u8 + 1);
            self.write_cell(i + 1, j + 1, l, loads);
        }
    }

    // Puts the loads of all cuts into the table, from the cut left of all pins.
    fn write_table(self, first: u8, loads: &mut [u8])
        requires { (first ≡ cut self.tops.now self.bottoms.now 0 0) × (load_rows (length self.tops.now + 1) ≤ length loads.old) }
        ensures { let s = self.entry in LoadsRead s.mark s.tops.now s.bottoms.now loads.old loads.new }
    {
        self.write_first(first, loads);
        let mut cut = first;
        for (i, pin) in self.top_pins.iter().enumerate() {
            cut = next_cut(cut, *pin, 0);
            self.write_row(i, cut, loads);
        }
    }
}

// The table of the nets of two sides, of which the first p are the top's.
fn tabulate(mark: Mark, nets: &[u16], p: usize, loads: &mut [u8])
    requires { (p ≤ 64) × (p ≤ length nets.now) × (length nets.now ≤ p + 64) × (load_rows (p + 1) ≤ length loads.old) }
    ensures { LoadsRead mark (take p nets.now) (drop p nets.now) loads.old loads.new }
{
    let tops = &nets[..p];
    let bottoms = &nets[p..];
    let top_pins = list_pins(mark, nets, tops, bottoms);
    let bottom_pins = list_pins(mark, nets, bottoms, tops);
    let pins = Pins {
        mark,
        tops,
        bottoms,
        top_pins: &top_pins,
        bottom_pins: &bottom_pins,
    };
    pins.write_table(first_cut(nets), loads);
}

// The loads of all cuts of two sections of a sheet with this mark, once per search.
pub fn read_loads(mark: Mark, top: &[u8], bottom: &[u8], loads: &mut [u8])
    requires { (length (terminals_in top.now) ≤ 64) × (length (terminals_in bottom.now) ≤ 64)
        × (load_rows (length (terminals_in top.now) + 1) ≤ length loads.old) }
    ensures { LoadsRead mark (nets_in top.now) (nets_in bottom.now) loads.old loads.new }
{
    let mut nets: ArrayVec<u16, 128> = ArrayVec::new();
    for net in Nets::new(top, bottom) {
        nets.push(net);
    }
    tabulate(mark, &nets, format::count_in(top), loads);
}
