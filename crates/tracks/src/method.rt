// The left-edge method over the intervals of nets in order.

ghost use Rattle.std.specs.Prelude.{◌≡◌, map, ℕ, ◌≤◌, ◌<◌, length};
ghost use Rattle.left_edge.specs.Lists.{Each};
ghost use Rattle.left_edge.specs.Method.{passed, track_on, step, left_edge, greatest};
ghost use Rattle.order.specs.Keys.{interval_at};

use arrayvec::ArrayVec;
use left_edge::{Interval, Span};
use order::interval_at;

// Lists the spans of intervals in order, each given as its key, and gives how many tracks they take.
pub fn route_keys(keys: &[u32], spans: &mut ArrayVec<Span, 128>) -> u16
    requires { (length keys.now ≤ 128) × Each (λ (k : ℕ). 1 ≤ (interval_at k).left) keys.now }
    ensures spans { spans.new.items ≡ left_edge (map interval_at keys.now) }
    ensures tracks { result ≡ greatest (left_edge (map interval_at keys.now)) }
{
    spans.clear();
    // how far right each track is used
    let mut ends: [u8; 128] = [0; 128];
    let mut tracks: u16 = 0;
    for key in keys {
        let x = interval_at(*key);
        let track = take_track(x, &mut ends);
        spans.push(span_on(x, track));
        tracks = tracks.max(track);
    }
    tracks
}

fn span_on(x: Interval, track: u16) -> Span
    ensures { result ≡ record { net = x.net; left = x.left; right = x.right; track = track } }
{
    Span {
        net: x.net,
        left: x.left as u16,
        right: x.right as u16,
        track,
    }
}

// Puts an interval on the lowest free track, and says which; 0 where it crosses no column.
fn take_track(x: Interval, ends: &mut [u8; 128]) -> u16
    requires { passed ends.old x.left < 128 }
    ensures track { result ≡ track_on ends.old x }
    ensures ends { ends.new ≡ step ends.old x }
{
    if !x.counts {
        return 0;
    }
    let i = free_track(ends, x.left);
    ends[i] = x.right;
    (i + 1) as u16
}

// The first track that ends left of a column, counted from 0.
fn free_track(ends: &[u8; 128], left: u8) -> usize
    requires { passed ends.now left < 128 }
    ensures { result ≡ passed ends.now left }
{
    ends.iter().take_while(|end| left <= **end).count()
}
