// The sheets that are tried. One of three is a sheet of `drawn`. On the others a bottom pin mostly has the net of a top pin beside the one
// that it faces, so that there are long chains, and circles with nets that lead to them, out of them and from one to another.
use drawn::{draw, net_of};
use enumeration::Sheet;
use fixtures::Plan;

fn is_of_drawn(n: u64) -> bool {
    n % 3 == 0
}

// The plan of sheet n. Six pins a side are enough for two circles and a net between them.
pub fn plan_of(n: u64) -> Plan {
    let plan = drawn::plan_of(n);
    if is_of_drawn(n) {
        return plan;
    }
    let top = draw(n, 60, 0, 4..=7).min(6);
    let bottom = draw(n, 61, 0, 4..=7).min(6);
    Plan {
        columns: top.max(bottom).saturating_add(draw(n, 62, 0, 0..=1)),
        top,
        bottom,
        ..plan
    }
}

// Sheet n, of its plan.
pub fn sheet_of(n: u64, plan: Plan) -> Sheet {
    let mut sheet = drawn::roomy_sheet_of(n, plan);
    if !is_of_drawn(n) {
        for (t, record) in sheet.records.iter_mut().enumerate() {
            record.net = net_of(n, renumber(n, number_of(n, plan.top as usize, t)));
        }
    }
    sheet
}

// Which net terminal t has, where p are on top: a bottom pin mostly that of the top pin behind or before the one of its own place.
fn number_of(n: u64, p: usize, t: usize) -> usize {
    if t < p {
        return top_number(n, t);
    }
    let place = t - p;
    let other = match draw(n, 63, t, 0..=7) {
        0..=4 => place.wrapping_add(1),
        5 | 6 => place.wrapping_sub(1),
        _ => p,
    };
    if other < p { top_number(n, other) } else { t }
}

// Which net a top pin has: one of its own, or that of the pin two before.
fn top_number(n: u64, t: usize) -> usize {
    if 2 <= t && draw(n, 64, t, 0..=3) == 0 {
        t - 2
    } else {
        t
    }
}

// The same nets in a drawn order.
fn renumber(n: u64, number: usize) -> u8 {
    let step = draw(n, 65, 0, 1..=12) as usize;
    let start = draw(n, 66, 0, 0..=12) as usize;
    ((number % 13 * step + start) % 13) as u8
}
