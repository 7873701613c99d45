// Passes over the table: whether all pins can be placed under a bound, and the least such bound.
#![tactic(auto)]

mod plan;

ghost use Rattle.std.specs.Prelude.{ℕ, ◌+◌, ◌≤◌, ◌<◌, ◌≡◌, true, false, length};
ghost use Rattle.channel.specs.Density.{most_density};
ghost use Rattle.arrays.specs.Loads.{load_rows};
ghost use Rattle.bound.specs.Least.{Below};
ghost use Rattle.pass.specs.Pass.{AsksPass, feasible_in, Tried, Bounded, Placed, table_end, columns_in};

use arrays::RuleTable;
use bits::below;
use entry::Filling;
pub use plan::Plan;
use table::{Follower, Plane, fill};
use walk::Walk;

// What all passes over one sheet go by, of which all pins can be placed under some bound. The cells are no field, and each method asks anew
// where the table lies in them: they change from pass to pass, and a struct that holds them to be written cannot be copied.
#[derive(Clone, Copy)]
pub struct Pass<'a> {
    pub rules: &'a RuleTable,
    pub loads: &'a [u8],
    pub plan: Plan,
    ghost loaded: { load_rows (plan.p + 1) ≤ length loads.now },
    ghost enough: { feasible_in rules.now.words loads.now plan most_density ≡ true },
}

impl Pass<'_> {
    // Fills the table under a bound, and says whether all pins can be placed.
    fn try_bound(self, work: &mut [u16], bound: u8) -> bool
        requires { AsksPass work.old self.plan }
        ensures { let s = self.entry in
            Tried s.rules.now.words s.loads.now s.plan bound work.old work.new result }
    {
        let Plan { grid, p, q, l } = self.plan;
        let filling = Filling {
            rules: self.rules,
            loads: self.loads,
            grid,
            bound,
        };
        fill(work, filling, p);
        let last = Plane {
            work,
            grid,
            i: p,
            j: q,
        };
        last.meets(0, grid.rows - 1, Follower::NONE, below(l + 1 - q))
    }

    // The least bound under which all pins can be placed, and its table, where no bound below the first is such a one. Most often the first is.
    fn least(self, work: &mut [u16], first: u8) -> u8
        requires { AsksPass work.old self.plan
            × Below (feasible_in self.rules.now.words self.loads.now self.plan) first }
        ensures { let s = self.entry in
            Bounded s.rules.now.words s.loads.now s.plan work.old work.new result }
    {
        let mut bound = first;
        // no `for`: it ends with the first bound under which all pins can be placed
        while !self.try_bound(work, bound) {
            bound += 1;
        }
        bound
    }

    // Writes the columns of the walk over a filled table. That they have room stays a clause, here and below: the buffer is the caller's,
    // lent anew to each method.
    fn walk(self, work: &[u16], columns: &mut [u8])
        requires { AsksPass work.now self.plan × (self.plan.p + self.plan.q ≤ length columns.old) }
        ensures { let s = self.entry in columns.new ≡ columns_in work.now s.rules.now.words s.plan columns.old }
    {
        let Plan { grid, p, q, l } = self.plan;
        let walk = Walk {
            work,
            rules: self.rules,
            grid,
            p,
            q,
        };
        walk.walk(l, columns);
    }

    // The columns of the walk under the least bound, where no bound below the first is met.
    pub fn place(self, work: &mut [u16], first: u8, columns: &mut [u8]) -> u8
        requires { AsksPass work.old self.plan × (self.plan.p + self.plan.q ≤ length columns.old)
            × Below (feasible_in self.rules.now.words self.loads.now self.plan) first }
        ensures { let s = self.entry in
            Placed s.rules.now.words s.loads.now s.plan work.old work.new columns.old columns.new result }
    {
        let least = self.least(work, first);
        self.walk(work, columns);
        least
    }
}
