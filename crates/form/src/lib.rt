// The form of a sheet's bytes: refusals 1 to 5.
#![tactic(auto)]

ghost use Rattle.std.specs.Prelude.{◌≡◌, ◌≤◌};
ghost use Rattle.form.specs.Form.{form_of, trailer_check, follows, laid_out};

use format::RECORD;
use refusals::{Checked, Refusal};
use trailer::{Part, TRAILER, Trailer, read_mark, read_trailer};

// 1 to 5 in turn: the file's length, its mark and its trailer.
#[tactic(auto, unfolding(crate::specs::Form::form_of))]
pub fn check_form(s: &[u8]) -> Checked
    ensures { result ≡ form_of s.now }
{
    if s.len() < TRAILER {
        return Err(Refusal::Short);
    }
    if read_mark(s).is_none() {
        return Err(Refusal::Mark);
    }
    check_trailer(read_trailer(s), s.len())
}

// 3 to 5, of a file of `len` bytes.
#[tactic(auto, unfolding(crate::specs::Form::trailer_check))]
fn check_trailer(t: Trailer, len: usize) -> Checked
    ensures { result ≡ trailer_check t len }
{
    let columns = t.columns;
    if columns == 0 || 64 < columns {
        return Err(Refusal::Length);
    }
    if 64 < t.top.count || 64 < t.bottom.count {
        return Err(Refusal::Count);
    }
    if !laid_out(t.top, t.bottom, len) {
        return Err(Refusal::Layout);
    }
    Ok(())
}

// Whether the two sections fill the file before the trailer.
#[tactic(auto, unfolding(crate::specs::Form::laid_out))]
fn laid_out(top: Part, bottom: Part, len: usize) -> bool
    requires { (top.count ≤ 64) × (bottom.count ≤ 64) }
    ensures { result ≡ laid_out top bottom len }
{
    len == RECORD * (top.count + bottom.count) + TRAILER
        && (second_follows(top, bottom) || second_follows(bottom, top))
}

// Whether one section starts the file and the other stands right behind it.
fn second_follows(first: Part, second: Part) -> bool
    requires { first.count ≤ 64 }
    ensures { result ≡ follows first second }
{
    first.at == 0 && second.at == RECORD * first.count
}
