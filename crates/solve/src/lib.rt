// The search over the sections of a sound sheet.
#![tactic(auto)]

ghost use Rattle.std.specs.Prelude.{◌+◌, ◌-◌, ◌≤◌, ◌≡◌, length};
ghost use Rattle.arrays.specs.Loads.{load_rows};
ghost use Rattle.solve.specs.Placed.{AsksPlace, Given, OpenRules, BestPlaced};
ghost use Rattle.solve.specs.Solved.{rows_of, plan_of, AsksSolve, Worked, Solved};

use arrays::RuleTable;
use binding::none_binds;
use channel::Side;
use clip::clip;
use entry::Grid;
use least::Order;
use order_walk::OrderWalk;
use pass::{Pass, Plan};
use rules::read_rules;
use sheet::Sections;

// So many top pins are few, and the bytes of the loads of as many, and of 64.
const FEW: usize = 7;

const FEW_LOADS: usize = 1560;

const LOADS: usize = 12675;

// The rows of a plane: the columns in which the last top pin can stand.
fn rows_of(l: usize, p: usize) -> usize
    requires { (l ≤ 64) × (p ≤ l) }
    ensures { result ≡ rows_of l p }
{
    if p == 0 { 1 } else { l - p + 1 }
}

// The measures of the table for p top and q bottom pins in l columns.
fn make_plan(l: usize, p: usize, q: usize) -> Plan
    requires { (1 ≤ l) × (l ≤ 64) × (p ≤ l) × (q ≤ l) }
    ensures { result ≡ plan_of l p q }
{
    let rows = rows_of(l, p);
    let across = q + 1;
    let size = 4 * rows;
    let grid = Grid {
        rows,
        across,
        size,
        stride: across * size,
    };
    Plan { grid, p, q, l }
}

// The least density of a sheet that has an assignment, and the columns of the best: by order alone where no distance binds, and else by
// the table, from the bound on that order alone leaves.
fn place(order: Order, columns: &mut [u8], work: &mut [u16]) -> u8
    requires { let o = order in Given o.rules.now.words o.loads.now o.l o.p o.q × AsksPlace o.l o.p o.q (length columns.old) (length work.old) }
    ensures { let o = order.entry in
        BestPlaced o.rules.now.words o.loads.now o.l o.p o.q columns.old columns.new work.old work.new result }
{
    let Order {
        rules,
        loads,
        p,
        q,
        l,
    } = order;
    let bound = order.least_bound(work);
    if none_binds(rules, Side::Top, p) & none_binds(rules, Side::Bottom, q) {
        let walk = OrderWalk { work, order, bound };
        walk.walk(columns);
        return bound;
    }
    let plan = make_plan(l, p, q);
    let pass = Pass { rules, loads, plan };
    pass.place(work, bound, columns)
}

// The same from the rules of two sections whose sides are open, with room for their loads.
fn place_open<'a>(
    sections: Sections,
    rules: &'a RuleTable,
    loads: &'a mut [u8],
    columns: &mut [u8],
    work: &mut [u16],
) -> u8
    requires { AsksSolve sections (length columns.old) (length work.old) × OpenRules sections rules.now.words
        × (load_rows (sections.shape.top + 1) ≤ length loads.old) }
    ensures { Worked sections.entry columns.old columns.new work.old work.new (Some result) }
{
    load::read_loads(sections.mark, sections.top, sections.bottom, loads);
    let order = Order {
        rules,
        loads,
        p: sections.shape.top,
        q: sections.shape.bottom,
        l: sections.shape.columns,
    };
    place(order, columns, work)
}

// Writes the columns of the best assignment, if there is one. What it leaves in the cells that it works in is for `solve` to clear.
fn find(sections: Sections, columns: &mut [u8], work: &mut [u16]) -> Option<u8>
    requires { AsksSolve sections (length columns.old) (length work.old) }
    ensures { Worked sections.entry columns.old columns.new work.old work.new result }
{
    let top = sections.top;
    let bottom = sections.bottom;
    let p = sections.shape.top;
    let q = sections.shape.bottom;
    let mut rules = RuleTable::new();
    read_rules(top, &mut rules, Side::Top);
    read_rules(bottom, &mut rules, Side::Bottom);
    let open = clip(&mut rules, Side::Top, p) & clip(&mut rules, Side::Bottom, q);
    if !open {
        return None;
    }
    let density = if p <= FEW {
        let mut loads: [u8; FEW_LOADS] = [0; FEW_LOADS];
        place_open(sections, &rules, &mut loads, columns, work)
    } else {
        let mut loads: [u8; LOADS] = [0; LOADS];
        place_open(sections, &rules, &mut loads, columns, work)
    };
    Some(density)
}

// Writes the columns of the best assignment, if there is one, and leaves the cells that this takes 0.
pub fn solve(sections: Sections, columns: &mut [u8], work: &mut [u16]) -> Option<u8>
    requires { AsksSolve sections (length columns.old) (length work.old) }
    ensures { Solved sections.entry columns.old columns.new work.old work.new result }
{
    let outcome = find(sections, columns, work);
    work[..sections.shape.cells].fill(0);
    outcome
}
