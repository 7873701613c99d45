// The soundness layer: the sheet check.
#![tactic(auto)]

mod sides;

ghost use Rattle.std.specs.Prelude.{◌≡◌};
ghost use Rattle.soundness.specs.Check.{check_of};

use form::check_form;
use format::part_in;
use refusals::Checked;
use sides::check_side;
use trailer::read_trailer;

// The sheet check: sound, or the first refusal that applies. 1 to 5 in turn, then the terminals, top before bottom, each tried for
// 6, 7 and 8 before the next.
#[tactic(auto, using(crate::proofs::Checks::trailer_told), unfolding(crate::specs::Check::check_of))]
pub fn check(s: &[u8]) -> Checked
    ensures { result ≡ check_of s.now }
{
    check_form(s)?;
    let t = read_trailer(s);
    check_side(part_in(s, t.top), t.columns)?;
    check_side(part_in(s, t.bottom), t.columns)
}
