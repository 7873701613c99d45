// The library's face for hosts: functions that answer with document 01's numbers. `cazdrob_c` exports them to C, and
// include/cazdrob.h declares them there. None asks anything of its caller but what the types of its parameters say.
#![tactic(auto)]

ghost use Rattle.std.specs.Prelude.{◌≡◌};
ghost use Rattle.channel.specs.Distance.{amount};
ghost use Rattle.soundness.specs.Check.{check_of};
ghost use Rattle.sheet.specs.Parts.{shape_of};
ghost use Rattle.cazdrob.specs.Host.{check_number, beyond_number, HostMeasures, HostSearches, HostNumbers, HostTracks, HostChains, HostMakes};

use chained::net_of;
use left_edge::Span;
use refusals::{Checked, Refusal, amount_of, number_of};
use tracked::{Tracked, counts_in};

// The number of the sheet's refusal; 0 for a sound sheet.
pub fn cazdrob_check(s: &[u8]) -> u32
    ensures { result ≡ check_number (check_of s.now) }
{
    u32::from(number_of(soundness::check(s)))
}

// The work cells that a search of the sheet needs; 0 for a refused sheet.
pub fn cazdrob_cells(s: &[u8]) -> usize
    ensures { result ≡ (shape_of s.now).cells }
{
    let shape = sheet::shape_of(s);
    shape.cells
}

// 8 where the set names a column above `columns`, as a sheet's check asks of every terminal; 0 where it names none.
pub fn cazdrob_beyond(set: u64, columns: usize) -> u32
    ensures { result ≡ beyond_number columns set }
{
    let answer: Checked = if terminal::names_above(set, columns) {
        Err(Refusal::Beyond)
    } else {
        Ok(())
    };
    u32::from(number_of(answer))
}

// By how many columns the distance from the column before to this one is out of the range from least to greatest: 0 in range, negative
// where it is too short, which is tried first, positive where it is too long.
pub fn cazdrob_distance(before: u8, column: u8, least: u8, greatest: u8) -> i32
    ensures { result ≡ amount least greatest before column }
{
    i32::from(terminal::amount(before, column, least, greatest).unwrap_or(0))
}

// Measures a column list: 0 with its density, or the number of a refusal with density 0. With 14 comes the amount by which the first bad
// pair's distance is out of range, with every other answer 0.
pub fn cazdrob_measure(s: &[u8], columns: &[u8], density: &mut u32, amount: &mut i32) -> u32
    ensures { HostMeasures s.now columns.now density.new amount.new result }
{
    let measured = measure::measure(s, columns);
    *density = measured.unwrap_or(0);
    *amount = i32::from(amount_of(measured));
    u32::from(number_of(measured))
}

// Finds the best assignment: 0 with its density and its columns, or the number of a refusal with density 0.
pub fn cazdrob_search(s: &[u8], columns: &mut [u8], work: &mut [u16], density: &mut u32) -> u32
    ensures { HostSearches s.now columns.old work.old
        columns.new work.new density.new result }
{
    let found = search::search(s, columns, work);
    *density = u32::from(found.unwrap_or(0));
    u32::from(number_of(found))
}

// Gives the nets of a clean assignment their tracks: 0 with the numbers of nets and tracks and a span for each net in front of the array,
// or the number of a refusal with 0 nets and 0 tracks. With 14 comes the amount, with every other answer 0.
pub fn cazdrob_tracks(
    s: &[u8],
    columns: &[u8],
    spans: &mut [Span],
    nets: &mut usize,
    tracks: &mut u32,
    amount: &mut i32,
) -> u32
    ensures { HostTracks s.now columns.now spans.old spans.new
        nets.new tracks.new amount.new result }
{
    let routed = tracks::route(s, columns, spans.len());
    span_array::copy_spans(spans, &routed);
    put_answer(counts_in(&routed), nets, tracks, amount)
}

// Stores the numbers of an answer about tracks.
fn put_answer(answer: Tracked, nets: &mut usize, tracks: &mut u32, amount: &mut i32) -> u32
    ensures { HostNumbers answer nets.new tracks.new amount.new result }
{
    let counts = answer.unwrap_or_default();
    *nets = counts.nets;
    *tracks = u32::from(counts.tracks);
    *amount = i32::from(amount_of(answer));
    u32::from(number_of(answer))
}

// The longest chain of an assignment's vertical constraints: 0 with how many nets it has and the greater of that and the density, or the
// number of a refusal with chain 0 and bound 0. With 19 comes the lowest net on a circle, with 14 the amount, with every other answer 0.
pub fn cazdrob_chain(
    s: &[u8],
    columns: &[u8],
    chain: &mut u32,
    bound: &mut u32,
    net: &mut u32,
    amount: &mut i32,
) -> u32
    ensures { HostChains s.now columns.now chain.new bound.new
        net.new amount.new result }
{
    let answer = chains::chain(s, columns);
    let longest = answer.unwrap_or_default();
    *chain = longest.nets;
    *bound = longest.bound;
    *net = u32::from(net_of(answer));
    *amount = i32::from(amount_of(answer));
    u32::from(number_of(answer))
}

// Turns two sides of modules into the sheet of a channel of so many columns: 0 with the sheet and its length, or the number of a refusal
// with length 0.
pub fn cazdrob_modules(
    length: usize,
    top: &[u8],
    bottom: &[u8],
    s: &mut [u8],
    written: &mut usize,
) -> u32
    ensures { HostMakes length top.now bottom.now s.old s.new written.new result }
{
    let sheet = module_sheet::make(length, top, bottom, s);
    *written = sheet.unwrap_or(0);
    u32::from(number_of(sheet))
}
