// The caller's array of spans.
#![tactic(auto)]

ghost use Rattle.std.specs.Prelude.{◌≡◌, ◌++◌, ◌≤◌, length, drop};
ghost use Rattle.tracked.specs.Routed.{spans_given};

use left_edge::Span;
use tracked::{Routed, TrackRefusal};

// Copies the spans of an answer into the front of the array, none with a refusal. The rest of the array is as it was.
pub fn copy_spans(spans: &mut [Span], answer: &Result<Routed, TrackRefusal>)
    requires { length (spans_given answer.now) ≤ length spans.old }
    ensures { spans.new ≡ spans_given answer.now ++ drop (length (spans_given answer.now)) spans.old }
{
    if let Ok(routed) = answer {
        let given = routed.given();
        let nets = given.len();
        spans[..nets].copy_from_slice(given);
    }
}
