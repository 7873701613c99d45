// Tracks for a clean assignment, one in which no column has pins of two nets.
#![tactic(auto)]

mod method;

ghost use Rattle.std.specs.Prelude.{◌≡◌, ℕ, ◌≤◌, ◌<◌, length};
ghost use Rattle.soundness.specs.Read.{sheet_of};
ghost use Rattle.ends.specs.Pins.{pins_in};
ghost use Rattle.left_edge.specs.Lists.{Each};
ghost use Rattle.left_edge.specs.Spans.{spans_of, two_nets};
ghost use Rattle.order.specs.Keys.{Columns};
ghost use Rattle.sheet.specs.Sections.{sheet_held};
ghost use Rattle.tracks.specs.Answer.{Gives, GivesIn, GivesFor, tracked_of};
ghost use Rattle.tracked.specs.Routed.{routed_of};

use arrayvec::ArrayVec;
use ends::{PinList, list_nets};
use left_edge::Span;
use list::ListedSheet;
use method::route_keys;
use order::order_nets;
use tracked::{Routed, TrackRefusal};

// Gives the nets of a column list their tracks: 1 to 8 of the sheet, 12, 13 and 14 of the list, then 18 where a column has pins of two nets
// and 9 where there is room for fewer spans than nets; otherwise the spans, and how many tracks they take.
pub fn route(s: &[u8], columns: &[u8], room: usize) -> Result<Routed, TrackRefusal>
    ensures { Gives (tracked_of s.now columns.now room)
        (spans_of (sheet_of s.now) columns.now) result }
{
    let listed = list::assignment(s, columns)?;
    let mut spans = ArrayVec::new();
    let tracks = route_columns(listed, room, &mut spans)?;
    Ok(Routed::new(&spans, tracks))
}

// 18 and 9 of an assignment, beside the sections of its sheet; else the spans, and how many tracks they take. The spans are lent room, as
// a vector that is given is copied on its way.
fn route_columns(
    listed: ListedSheet,
    room: usize,
    spans: &mut ArrayVec<Span, 128>,
) -> Result<u16, TrackRefusal>
    requires { Columns listed.columns.now listed.sections.shape.columns }
    ensures { GivesFor (sheet_held listed.entry.sections) listed.entry.columns.now room (routed_of spans.new.items result) }
{
    let mut nets = ArrayVec::new();
    list_nets(listed.sections.top, listed.sections.bottom, &mut nets);
    let pins = PinList {
        mark: listed.sections.mark,
        nets: &nets,
        columns: listed.columns,
    };
    route_nets(pins, listed.sections.shape.columns as u8, room, spans)
}

// The same from the pins.
fn route_nets(
    pins: PinList,
    l: u8,
    room: usize,
    spans: &mut ArrayVec<Span, 128>,
) -> Result<u16, TrackRefusal>
    requires { Columns pins.columns.now l × (length pins.nets.now ≤ 128) }
    ensures { GivesIn pins.entry.mark l (pins_in pins.entry) pins.entry.nets.now room (routed_of spans.new.items result) }
{
    if two_nets(pins) {
        return Err(TrackRefusal::TwoNets);
    }
    let mut keys = ArrayVec::new();
    order_nets(pins, l, &mut keys);
    if room < keys.len() {
        return Err(TrackRefusal::SpanBuffer);
    }
    Ok(route_keys(&keys, spans))
}

// Whether a column has pins of two nets.
fn two_nets(pins: PinList) -> bool
    requires { Each (λ (c : ℕ). c < 256) pins.columns.now }
    ensures { result ≡ two_nets (pins_in pins.entry) }
{
    // one more than the net of the last pin in each column, 0 where there was none: with an `Option` for each column all of the routing takes
    // 1.3 to 1.7, 1.1 to 1.3 and 1.01 to 1.03 of the time for 10, 32 and 128 pins (in plain Rust)
    let mut seen: [u32; 256] = [0; 256];
    let mut found = false;
    for (net, column) in pins.nets.iter().zip(pins.columns) {
        let own = *net as u32 + 1;
        let place = *column as usize;
        let before = seen[place];
        found |= (before != 0) & (before != own);
        seen[place] = own;
    }
    found
}
