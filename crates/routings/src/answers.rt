// What is to be answered to a case and what the library answers, in one form.

use crate::trials::Case;
use enumeration::{NoTracks, ROOM, Routing, Span, Spans};
use refusals::{HasAmount, Reason, amount_of, number_of};
use std::fmt;
use tracked::TrackRefusal;

pub type Answer = Result<Routing, TrackRefusal>;

impl Case<'_> {
    // What is to be answered: the measurement's refusal, or what the rule says.
    pub fn expected(&self) -> Answer {
        measure::measure(self.lent.sheet, self.lent.columns)?;
        // a map in place: neither type is this crate's, so it may not write a `From`
        self.pins.route(self.room).map_err(|why| match why {
            NoTracks::TwoNets => TrackRefusal::TwoNets,
            NoTracks::Room => TrackRefusal::SpanBuffer,
        })
    }

    // What the library answers.
    pub fn given(&self) -> Answer {
        let routed = tracks::route(self.lent.sheet, self.lent.columns, self.room)?;
        let counts = routed.counts();
        Ok(Routing {
            nets: counts.nets,
            tracks: counts.tracks,
            spans: first_spans(routed.given()),
        })
    }

    // Whether the tracks are as many as the density, by the program's own count; a refusal has neither.
    pub fn is_dense(&self, answer: &Answer) -> bool {
        match answer {
            Ok(routing) => routing.tracks as usize == self.pins.density(),
            Err(_) => true,
        }
    }
}

// The spans that the library gives, as far as there is room for them, in the type of `enumeration`, which asks the library nothing.
fn first_spans(all: &[left_edge::Span]) -> Spans {
    let mut spans = [Span::default(); ROOM];
    for (place, span) in spans.iter_mut().zip(all) {
        *place = Span {
            net: span.net,
            left: span.left,
            right: span.right,
            track: span.track,
        };
    }
    spans
}

// A refusal's number and amount by the rules, and 0 where there is none. Those of a list are the measurement's, which `exhaustive` tries.
fn numbers(answer: Answer) -> (u8, i16) {
    match answer {
        Ok(_) => (0, 0),
        Err(TrackRefusal::SpanBuffer) => (9, 0),
        Err(TrackRefusal::TwoNets) => (18, 0),
        Err(TrackRefusal::Listed(why)) => (why.number(), why.amount()),
    }
}

// Whether an answer is the one that is wanted, in its number and its amount too.
pub fn agree(wanted: Answer, given: Answer) -> bool {
    wanted == given && numbers(wanted) == (number_of(given), amount_of(given))
}

// An answer as it is shown.
#[derive(Clone, Copy)]
pub struct Shown<'a>(pub &'a Answer);

impl fmt::Display for Shown<'_> {
    fn fmt<W: fmt::Write>(&self, f: &mut fmt::Formatter<W>) -> fmt::Result {
        match self.0 {
            Ok(routing) => show_routing(f, routing),
            Err(why) => write!(f, "refused {why:?}"),
        }
    }
}

fn show_routing<W: fmt::Write>(f: &mut fmt::Formatter<W>, routing: &Routing) -> fmt::Result {
    write!(f, "nets {}, tracks {}", routing.nets, routing.tracks)?;
    for span in routing.spans() {
        write!(
            f,
            ", net {} from {} to {} ",
            span.net, span.left, span.right
        )?;
        write!(f, "on track {}", span.track)?;
    }
    Ok(())
}
