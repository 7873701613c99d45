// The density of a list: each net is counted once in the columns that it crosses.
#![tactic(auto)]

ghost use Rattle.std.specs.Prelude.{◌≡◌, ℕ, ◌≤◌, ◌<◌, length, get_or, replicate};
ghost use Rattle.channel.specs.Density.{straight, weight, maximum_to, density};
ghost use Rattle.channel.specs.Spans.{within};
ghost use Rattle.sheet.specs.Sections.{sheet_held};
ghost use Rattle.ends.specs.Pins.{pins_in};
ghost use Rattle.density.specs.Counted.{net_spans, Added, Small, counted_at};

use arrayvec::ArrayVec;
use ends::{PinList, list_nets};
use list::ListedSheet;
use nets::Distinct;

// The density of a list beside its sheet.
pub fn list_density(listed: ListedSheet) -> u32
    ensures { result ≡ density (sheet_held listed.entry.sections) listed.entry.columns.now }
{
    let mut nets = ArrayVec::new();
    list_nets(listed.sections.top, listed.sections.bottom, &mut nets);
    let pins = PinList {
        mark: listed.sections.mark,
        nets: &nets,
        columns: listed.columns,
    };
    let mut counts: [u16; 256] = [0; 256];
    count_nets(pins, &mut counts);
    u32::from(greatest(&counts, listed.sections.shape.columns))
}

// Counts each net once.
fn count_nets(pins: PinList, counts: &mut [u16; 256])
    requires { (length pins.nets.now ≤ 128) × (counts.old ≡ replicate 256 0) }
    ensures { (c : ℕ) → get_or counts.new c 0 ≡ counted_at pins.entry.mark pins.entry.nets.now pins.entry.columns.now c }
{
    for net in (Distinct { left: pins.nets }) {
        count_net(net, pins, counts);
    }
}

// Adds one net to the columns that it crosses: from its left end to its right end, if it crosses any.
fn count_net(net: u16, pins: PinList, counts: &mut [u16; 256])
    requires { (length pins.nets.now ≤ 128) × Small counts.old }
    ensures { Added (weight net) (λ (c : ℕ). net_spans (straight pins.entry.mark pins.entry.nets.now) (pins_in pins.entry) c net)
        counts.old counts.new }
{
    let ends = pins.ends_of(net);
    if pins.counts(net, ends) {
        add_span(counts, ends.left as usize, ends.right as usize);
    }
}

// Adds 1 to the counts of the columns `from` to `to`.
fn add_span(counts: &mut [u16; 256], from: usize, to: usize)
    requires { (from ≤ to) × (to < 256) × Small counts.old }
    ensures { Added 1 (within from to) counts.old counts.new }
{
    for count in &mut counts[from..=to] {
        *count += 1;
    }
}

// The greatest count of columns 1 to `l`.
fn greatest(counts: &[u16; 256], l: usize) -> u16
    requires { l < 256 }
    ensures { result ≡ maximum_to l (λ (c : ℕ). get_or counts.now c 0) }
{
    counts[1..=l].iter().fold(0, |most, count| most.max(*count))
}
