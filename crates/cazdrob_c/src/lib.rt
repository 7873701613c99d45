// The C functions of the library, under the names that include/cazdrob.h declares: each is the call of `cazdrob` with its name and its
// contract. The C interface needs these twins: a static library is a crate of its own, which no crate can call, and a Rattle program calls
// `cazdrob`.
#![tactic(auto)]

ghost use Rattle.std.specs.Prelude.{◌≡◌};
ghost use Rattle.channel.specs.Distance.{amount};
ghost use Rattle.soundness.specs.Check.{check_of};
ghost use Rattle.sheet.specs.Parts.{shape_of};
ghost use Rattle.cazdrob.specs.Host.{check_number, beyond_number, HostMeasures, HostSearches, HostTracks, HostChains, HostMakes};

use left_edge::Span;

#[unsafe(no_mangle)]
pub extern "C" fn cazdrob_check(s: &[u8]) -> u32
    ensures { result ≡ check_number (check_of s.now) }
{
    cazdrob::cazdrob_check(s)
}

#[unsafe(no_mangle)]
pub extern "C" fn cazdrob_cells(s: &[u8]) -> usize
    ensures { result ≡ (shape_of s.now).cells }
{
    cazdrob::cazdrob_cells(s)
}

#[unsafe(no_mangle)]
pub extern "C" fn cazdrob_beyond(set: u64, columns: usize) -> u32
    ensures { result ≡ beyond_number columns set }
{
    cazdrob::cazdrob_beyond(set, columns)
}

#[unsafe(no_mangle)]
pub extern "C" fn cazdrob_distance(before: u8, column: u8, least: u8, greatest: u8) -> i32
    ensures { result ≡ amount least greatest before column }
{
    cazdrob::cazdrob_distance(before, column, least, greatest)
}

#[unsafe(no_mangle)]
pub extern "C" fn cazdrob_measure(
    s: &[u8],
    columns: &[u8],
    density: &mut u32,
    amount: &mut i32,
) -> u32
    ensures { HostMeasures s.now columns.now density.new amount.new result }
{
    cazdrob::cazdrob_measure(s, columns, density, amount)
}

#[unsafe(no_mangle)]
pub extern "C" fn cazdrob_search(
    s: &[u8],
    columns: &mut [u8],
    work: &mut [u16],
    density: &mut u32,
) -> u32
    ensures { HostSearches s.now columns.old work.old
        columns.new work.new density.new result }
{
    cazdrob::cazdrob_search(s, columns, work, density)
}

#[unsafe(no_mangle)]
pub extern "C" fn cazdrob_tracks(
    s: &[u8],
    columns: &[u8],
    spans: &mut [Span],
    nets: &mut usize,
    tracks: &mut u32,
    amount: &mut i32,
) -> u32
    ensures { HostTracks s.now columns.now spans.old spans.new
        nets.new tracks.new amount.new result }
{
    cazdrob::cazdrob_tracks(s, columns, spans, nets, tracks, amount)
}

#[unsafe(no_mangle)]
pub extern "C" fn cazdrob_chain(
    s: &[u8],
    columns: &[u8],
    chain: &mut u32,
    bound: &mut u32,
    net: &mut u32,
    amount: &mut i32,
) -> u32
    ensures { HostChains s.now columns.now chain.new bound.new
        net.new amount.new result }
{
    cazdrob::cazdrob_chain(s, columns, chain, bound, net, amount)
}

#[unsafe(no_mangle)]
pub extern "C" fn cazdrob_modules(
    length: usize,
    top: &[u8],
    bottom: &[u8],
    s: &mut [u8],
    written: &mut usize,
) -> u32
    ensures { HostMakes length top.now bottom.now s.old s.new written.new result }
{
    cazdrob::cazdrob_modules(length, top, bottom, s, written)
}
