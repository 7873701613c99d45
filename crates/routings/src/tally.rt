// What occurs among the routings: without it, that none differs would say little.
use crate::SHEETS;
use crate::answers::Answer;
use enumeration::{Routing, Sheet, Span, leaves};
use mark::Mark;
use std::fmt;
use tracked::TrackRefusal;

// The sheets with the mark CQ. All routings: those with tracks, refused with 18, with 9 and as a measurement is, and those that differ. Of
// the spans: how many there are, those on track 0, those of straight wires that count and those of nets that leave the channel. The most
// tracks of a routing.
#[derive(Clone, Copy, Debug, Default, PartialEq, Eq)]
pub struct Tally {
    pub cq: u64,
    pub routings: u64,
    pub routed: u64,
    pub two_nets: u64,
    pub no_room: u64,
    pub refused: u64,
    pub spans: u64,
    pub trackless: u64,
    pub straight: u64,
    pub leaving: u64,
    pub most: u16,
    pub wrong: u64,
}

// One more where it is so; a sum that wraps asks for no bound.
fn count(n: &mut u64, so: bool) {
    *n = n.wrapping_add(so as u64);
}

// Whether a span is that of a straight wire that counts, which has a track.
fn is_straight(span: Span) -> bool {
    !leaves(span.net).any() && span.left == span.right && span.track != 0
}

impl Tally {
    // One sheet more.
    pub fn add_sheet(&mut self, sheet: &Sheet) {
        count(&mut self.cq, sheet.mark == Mark::Cq);
    }

    // One routing more, by the answer that is expected.
    pub fn add(&mut self, answer: &Answer, wrong: bool) {
        count(&mut self.routings, true);
        count(&mut self.wrong, wrong);
        match answer {
            Ok(routing) => self.add_routing(routing),
            Err(TrackRefusal::SpanBuffer) => count(&mut self.no_room, true),
            Err(TrackRefusal::TwoNets) => count(&mut self.two_nets, true),
            Err(TrackRefusal::Listed(_)) => count(&mut self.refused, true),
        }
    }

    fn add_routing(&mut self, routing: &Routing) {
        count(&mut self.routed, true);
        self.most = self.most.max(routing.tracks);
        for span in routing.spans() {
            count(&mut self.spans, true);
            count(&mut self.trackless, span.track == 0);
            count(&mut self.straight, is_straight(*span));
            count(&mut self.leaving, leaves(span.net).any());
        }
    }
}

impl fmt::Display for Tally {
    fn fmt<W: fmt::Write>(&self, f: &mut fmt::Formatter<W>) -> fmt::Result {
        write!(f, "{SHEETS} sheets, {} with the mark CQ, ", self.cq)?;
        write!(f, "{} routings, ", self.routings)?;
        write!(
            f,
            "{} with tracks, {} refused with 18, ",
            self.routed, self.two_nets
        )?;
        write!(
            f,
            "{} with 9, {} as in a measurement, ",
            self.no_room, self.refused
        )?;
        write!(f, "{} spans, {} on track 0, ", self.spans, self.trackless)?;
        write!(
            f,
            "{} of a straight wire that counts, {} of a net that leaves, ",
            self.straight, self.leaving
        )?;
        write!(f, "{} tracks at the most, ", self.most)?;
        write!(f, "{} differences", self.wrong)
    }
}
