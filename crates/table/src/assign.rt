// The call that gives a run of a table another value.
ghost use Rattle.std.specs.Prelude.{◌≡◌, ◌+◌, ◌<◌, ◌≤◌, length};
ghost use Rattle.table.specs.Extents.{before};
ghost use Rattle.table.specs.Calls.{Assigns};
ghost use Rattle.table.specs.Rows.{SameRow};
ghost use Rattle.table.specs.Steps.{Behind, Plans};

use crate::extent::{Run, Slot};
use crate::extents::{Extents, slot_at};
use crate::kind::Value;
use crate::refusal::Refusal;
use crate::row::Plan;
use crate::table::Table;

impl<'a, V: Value> Extents<'a, V> {
    // The slot that begins behind a run that is given a value, or none where the run goes on with what is there.
    // So many slots start at the run's end or below it.
    fn slot_behind(&self, count: usize, run: Run, value: V) -> Option<Slot<V>>
        requires counted { count ≡ before (run.start + run.length + 1) self.now.slots.now }
        requires filled { 0 < run.length }
        requires inside { run.start + run.length ≤ self.now.length }
        ensures { Behind V.shift V.same self.now.length self.now.slots.now run value result }
    {
        let start = run.start + run.length;
        if start >= self.length {
            return None;
        }
        let rest = self.extent_of(count, start).value_at(start);
        slot_at(Some(value.shifted(run.length)), start, rest)
    }

    #[tactic(auto, using(crate::proofs::Runs::before_mono, crate::proofs::Finding::before_le))]
    fn plan_assign(&self, run: Run, value: V) -> Plan<V>
        requires filled { 0 < run.length }
        requires inside { run.start + run.length ≤ self.now.length }
        ensures front { result.front ≤ result.back }
        ensures back { result.back ≤ length self.now.slots.now }
        ensures plans { Plans V.shift V.same self.now.length self.now.slots.now run value result }
    {
        let end = run.start + run.length;
        let front = self.count_before(run.start);
        let middle = self.slot_from(front, run.start, value);
        let back = self.count_before(end + 1);
        let tail = self.slot_behind(back, run, value);
        Plan {
            front,
            middle,
            tail,
            back,
            length: self.length,
        }
    }
}

impl<'a, V: Value> Table<'a, V> {
    // Gives the sectors of a run the value and what it is further on.
    pub fn assign(&mut self, run: Run, value: V) -> Result<(), Refusal>
        ensures assigns { Assigns V.shift V.same self.old.head self.old.slots.now run value self.new.head self.new.slots.now result }
        ensures same_row { SameRow self.old self.new }
    {
        if run.length == 0 {
            return Err(Refusal::EmptyLength);
        }
        let extents = self.extents().ok_or(Refusal::BrokenTable)?;
        if !run.is_inside(extents.length) {
            return Err(Refusal::Outside);
        }
        let plan = extents.plan_assign(run, value);
        self.splice(plan)
    }
}
