// The density of a given column list.
#![tactic(auto)]

ghost use Rattle.std.specs.Prelude.{◌≡◌};
ghost use Rattle.measure.specs.Answer.{measured_of};

use density::list_density;
use measured::Measured;

// Measures a column list: 1 to 8 of the sheet, then 12, 13 and 14 of the list, otherwise its density.
pub fn measure(s: &[u8], columns: &[u8]) -> Measured
    ensures { result ≡ measured_of s.now columns.now }
{
    let listed = list::assignment(s, columns)?;
    Ok(list_density(listed))
}
