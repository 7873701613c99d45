// The answer about the tracks of a column list, with its numbers by the refusal list, and the spans that come with it.
#![tactic(auto)]

ghost use Rattle.std.specs.Prelude.{◌≡◌};
ghost use Rattle.tracked.specs.Numbers.{track_number, track_amount};
ghost use Rattle.tracked.specs.Routed.{counts_in};

use arrayvec::ArrayVec;
use left_edge::Span;
use refusals::{HasAmount, ListRefusal, Reason};

// How many nets there are, and how many tracks they take.
#[derive(Clone, Copy, Debug, Default, PartialEq, Eq)]
pub struct Counts {
    pub nets: usize,
    pub tracks: u16,
}

// Why the nets get no tracks: the list is no assignment, a column has pins of two nets, or the array has fewer records than there are nets.
#[derive(Clone, Copy, Debug, PartialEq, Eq)]
pub enum TrackRefusal {
    Listed(ListRefusal),
    TwoNets,
    SpanBuffer,
}

// The numbers of nets and tracks, or why there are none.
pub type Tracked = Result<Counts, TrackRefusal>;

// The spans of the nets in their order, in front of an array with spans of 0 behind them; how many nets there are, and how many tracks they
// take. It is an array, so that the answer can be copied.
#[derive(Clone, Copy)]
pub struct Routed {
    pub spans: [Span; 128],
    pub nets: usize,
    pub tracks: u16,
}

impl Routed {
    ghost use Rattle.tracked.specs.Routed.{counts_of, given_of, routed_with};

    // The answer with these spans.
    pub fn new(spans: &ArrayVec<Span, 128>, tracks: u16) -> Self
        ensures { result ≡ routed_with spans.now.items tracks }
    {
        let nets = spans.len();
        let mut all = [Span::default(); 128];
        all[..nets].copy_from_slice(spans);
        Routed {
            spans: all,
            nets,
            tracks,
        }
    }

    // The spans of the nets.
    pub fn given(&self) -> &[Span]
        ensures { result.now ≡ given_of self.now }
    {
        &self.spans[..self.nets.min(128)]
    }

    // The numbers of nets and tracks.
    pub fn counts(&self) -> Counts
        ensures { result ≡ counts_of self.now }
    {
        Counts {
            nets: self.nets,
            tracks: self.tracks,
        }
    }
}

impl Reason for TrackRefusal {
    ghost number = { track_number };

    fn number(self) -> u8 {
        match self {
            TrackRefusal::Listed(refusal) => refusal.number(),
            TrackRefusal::TwoNets => 18,
            TrackRefusal::SpanBuffer => 9,
        }
    }
}

impl HasAmount for TrackRefusal {
    ghost amount = { track_amount };

    fn amount(self) -> i16 {
        match self {
            TrackRefusal::Listed(refusal) => refusal.amount(),
            TrackRefusal::TwoNets => 0,
            TrackRefusal::SpanBuffer => 0,
        }
    }
}

// The numbers of an answer that has its spans with it, which stay where they are.
pub fn counts_in(answer: &Result<Routed, TrackRefusal>) -> Tracked
    ensures { result ≡ counts_in answer.now }
{
    match answer {
        Ok(routed) => Ok(routed.counts()),
        Err(why) => Err(*why),
    }
}

// Tracks are refused with their list.
impl From<ListRefusal> for TrackRefusal {
    ghost use Rattle.tracked.specs.declared.TrackRefusal.TheVariants.{Listed};

    ghost from_gives = { λ why answer. answer ≡ Listed why };

    fn from(why: ListRefusal) -> Self {
        TrackRefusal::Listed(why)
    }
}
