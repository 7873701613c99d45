// The sheets that are tried. The first are all small sheets with full sets, ranges 1 to 255 and at most three
// nets; the others are drawn. The mark of each is drawn.
ghost use Rattle.std.specs.Prelude.{◌≤◌};

use crate::draws::{bits, draw};
use enumeration::{ROOM, Sheet};
use fixtures::{Page, Plan, full_set};
use mark::Mark;
use std::ops::RangeInclusive;
use terminal::Record;

// How the range of a terminal's distances is drawn.
#[derive(Clone, Copy, Debug, PartialEq, Eq)]
enum RangeKind {
    // 1 to 255
    Loose,
    // one distance
    One,
    Both,
    // the least one, and 255
    Least,
}

// How a terminal's set is drawn.
#[derive(Clone, Copy, Debug, PartialEq, Eq)]
enum SetKind {
    Full,
    // about half the columns
    Half,
    // four columns at the most
    Few,
    // one, and sometimes none
    One,
}

// L 1 to 4, p and q 0 to 3, and six nets out of three: 4 * 4 * 4 * 729.
const REGULAR: u64 = 46656;

pub fn plan_of(n: u64) -> Plan {
    if n < REGULAR {
        return Plan {
            columns: (n % 4) as u8 + 1,
            top: (n / 4 % 4) as u8,
            bottom: (n / 16 % 4) as u8,
            bottom_first: n / 64 % 2 == 1,
            mark: drawn_mark(n),
        };
    }
    Plan {
        columns: drawn_columns(n),
        top: drawn_pins(n, 1),
        bottom: drawn_pins(n, 2),
        bottom_first: draw(n, 3, 0, 0..=1) == 1,
        mark: drawn_mark(n),
    }
}

fn drawn_mark(n: u64) -> Mark {
    match draw(n, 6, 0, 0..=1) {
        0 => Mark::Cp,
        _ => Mark::Cq,
    }
}

fn drawn_pins(n: u64, what: u64) -> u8 {
    match draw(n, what, 0, 0..=7) {
        0 => 0,
        1 => 1,
        2 | 3 => 2,
        7 => 4,
        _ => 3,
    }
}

// Three in four are narrow, the others have up to 64 columns; 6 and 64 are the most frequent.
fn drawn_columns(n: u64) -> u8 {
    let (range, most) = if draw(n, 4, 0, 0..=3) == 0 {
        (7..=80, 64)
    } else {
        (1..=8, 6)
    };
    draw(n, 5, 0, range).min(most)
}

// The sheet of a plan: its terminals, top before bottom.
pub fn sheet_of(n: u64, plan: Plan) -> Sheet {
    let mut records = [Record::default(); ROOM];
    let mut digits = n / 64;
    for (t, record) in records.iter_mut().enumerate() {
        *record = Pin { n, plan, t }.terminal(digits);
        digits /= 3;
    }
    Sheet {
        columns: plan.columns,
        top: plan.top,
        bottom: plan.bottom,
        mark: plan.mark,
        records,
    }
}

// The sheet of a plan; three of four have full sets, so that most have assignments.
pub fn roomy_sheet_of(n: u64, plan: Plan) -> Sheet {
    let mut sheet = sheet_of(n, plan);
    if n % 4 != 0 {
        for record in sheet.records.iter_mut() {
            record.allowed = full_set(sheet.columns);
        }
    }
    sheet
}

// Terminal t of sheet n, which has this plan.
#[derive(Clone, Copy)]
struct Pin {
    n: u64,
    plan: Plan,
    t: usize,
}

impl Pin {
    // A number that is drawn for this terminal.
    fn draw(self, what: u64, range: RangeInclusive<u8>) -> u8 {
        draw(self.n, what, self.t, range)
    }

    fn terminal(self, digits: u64) -> Record {
        let (least, greatest) = self.range();
        Record {
            net: self.net(digits),
            least,
            greatest,
            allowed: self.set(),
        }
    }

    // One to five nets. On one drawn sheet of four, pins of one place have one net, so that straight wires are frequent.
    fn net(self, digits: u64) -> u16 {
        let k = if self.n < REGULAR {
            (digits % 3) as u8
        } else if draw(self.n, 27, 0, 0..=3) == 0 {
            self.place()
        } else {
            self.draw(7, 0..=draw(self.n, 8, 0, 0..=4))
        };
        net_of(self.n, k)
    }

    // The place on its side, from 0.
    fn place(self) -> u8 {
        let p = self.plan.top as usize;
        let place = if self.t < p { self.t } else { self.t - p };
        (place % ROOM) as u8
    }

    // Mostly one kind for the whole sheet.
    fn range_kind(self) -> RangeKind {
        if self.n < REGULAR {
            return RangeKind::Loose;
        }
        match draw(self.n, 10, 0, 0..=7) {
            5 => RangeKind::One,
            6 => RangeKind::Both,
            7 => match self.draw(11, 0..=3) {
                0 => RangeKind::Loose,
                1 => RangeKind::One,
                2 => RangeKind::Both,
                _ => RangeKind::Least,
            },
            _ => RangeKind::Loose,
        }
    }

    // The least and the greatest distance.
    fn range(self) -> (u8, u8) {
        if self.t == 0 || self.t == self.plan.top as usize {
            return (0, 0);
        }
        let (near, far) = if self.plan.columns <= 6 {
            (3, 4)
        } else {
            (30, 40)
        };
        let least = self.draw(12, 1..=near);
        match self.range_kind() {
            RangeKind::Loose => (1, 255),
            RangeKind::One => (least, least),
            RangeKind::Both => (least, self.draw(13, least..=far)),
            RangeKind::Least => (least, 255),
        }
    }

    // Mostly one kind for the whole sheet. With many pins the sets are small, so that the lists can be tried one by one.
    fn set_kind(self) -> SetKind {
        if self.n < REGULAR {
            return SetKind::Full;
        }
        let most = if self.plan.columns <= 6 { 6 } else { 2 };
        let crowded = most < self.plan.top as u16 + self.plan.bottom as u16;
        let drawn = match draw(self.n, 14, 0, 0..=4) {
            4 => self.draw(15, 0..=3),
            common => common,
        };
        match drawn {
            0 if !crowded => SetKind::Full,
            1 if !crowded => SetKind::Half,
            3 => SetKind::One,
            _ => SetKind::Few,
        }
    }

    fn set(self) -> u64 {
        match self.set_kind() {
            SetKind::Full => full_set(self.plan.columns),
            SetKind::Half => full_set(self.plan.columns) & bits(self.n, 16, self.t),
            SetKind::Few => self.column(0) | self.column(1) | self.column(2) | self.column(3),
            SetKind::One if self.draw(17, 0..=19) == 0 => 0,
            SetKind::One => self.column(0),
        }
    }

    // The set of one column, number k of those that are drawn; often the first or the last of the channel.
    fn column(self, k: u64) -> u64
        requires { k ≤ 3 }
    {
        match self.draw(18 + 2 * k, 0..=9) {
            0 => single(1),
            1 => single(self.plan.columns),
            _ => single(self.draw(19 + 2 * k, 1..=self.plan.columns)),
        }
    }
}

// Net k of sheet n. On some sheets the nets differ in the upper byte only, and on half of them each has a drawn kind.
pub fn net_of(n: u64, k: u8) -> u16 {
    match draw(n, 9, 0, 0..=7) {
        0 | 1 => 256 * k as u16 + 255,
        2 | 3 => k as u16 + 1,
        _ => net_of_drawn_kind(n, k),
    }
}

// A net of a drawn kind, plain or leaving at the left, at the right or at both ends: so many numbers from the first or the last of
// its kind.
fn net_of_drawn_kind(n: u64, k: u8) -> u16 {
    let from = k as u16;
    match draw(n, 26, k as usize, 0..=7) {
        0 => 1 + from,
        1 => 60000 - from,
        2 => 60001 + from,
        3 => 62000 - from,
        4 => 62001 + from,
        5 => 64000 - from,
        6 => 64001 + from,
        _ => 65535 - from,
    }
}

// The set of this column alone, and the empty set where it is none of 1 to 64. By hand, not by the library's
// `bits::single`: the tests ask the library nothing that they check.
pub fn single(column: u8) -> u64 {
    match column {
        1..=64 => 1 << (column - 1),
        _ => 0,
    }
}

// Writes the sheet into the page.
pub fn put_sheet(page: &mut Page, plan: Plan, sheet: &Sheet) {
    for (t, terminal) in sheet.terminals().iter().enumerate() {
        page.put_record(record_place(plan, t), *terminal);
    }
    page.close(plan);
}

// Which record of the file terminal t has.
fn record_place(plan: Plan, t: usize) -> usize
    requires { t ≤ 12 }
{
    let (top_at, bottom_at) = plan.starts();
    let p = plan.top as usize;
    if t < p {
        top_at as usize + t
    } else {
        bottom_at as usize + (t - p)
    }
}
