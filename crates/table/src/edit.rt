// The calls on one table: look, cut and append.
ghost use Rattle.std.specs.Prelude.{◌≡◌};
ghost use Rattle.table.specs.Calls.{Looks, Cuts, Appends};
ghost use Rattle.table.specs.Rows.{SameRow};

use crate::extent::Head;
use crate::kind::Value;
use crate::normal::LIMIT;
use crate::refusal::Refusal;
use crate::row::Plan;
use crate::table::{Table, View};

impl<'a, V: Value> View<'a, V> {
    // The value at a sector.
    pub fn look(&self, sector: u64) -> Result<V, Refusal>
        ensures { Looks V.shift V.same self.now.head self.now.slots.now sector result }
    {
        let extents = self.extents().ok_or(Refusal::BrokenTable)?;
        if sector >= extents.length {
            return Err(Refusal::Outside);
        }
        Ok(extents.extent_at(sector).value_at(sector))
    }

    // Keeps the first `length` sectors. Only the head is written, so a shared row suffices.
    pub fn cut(&mut self, length: u64) -> Result<(), Refusal>
        ensures cuts { Cuts V.shift V.same self.old.head self.old.slots.now length self.new.head self.new.slots.now result }
        ensures slots { self.new.slots.now ≡ self.old.slots.now }
    {
        let extents = self.extents().ok_or(Refusal::BrokenTable)?;
        if length > extents.length {
            return Err(Refusal::Outside);
        }
        let count = extents.count_before(length);
        self.head = Head { count, length };
        Ok(())
    }
}

impl<'a, V: Value> Table<'a, V> {
    // Keeps the first `length` sectors, and leaves every slot as it is.
    pub fn cut(&mut self, length: u64) -> Result<(), Refusal>
        ensures cuts { Cuts V.shift V.same self.old.head self.old.slots.now length self.new.head self.new.slots.now result }
        ensures slots { self.new.slots.now ≡ self.old.slots.now }
        ensures same_row { SameRow self.old self.new }
    {
        let mut view = self.view();
        view.cut(length)?;
        self.head = view.head;
        Ok(())
    }

    // Adds `length` sectors at the end, with the value and what it is further on.
    pub fn append(&mut self, length: u64, value: V) -> Result<(), Refusal>
        ensures appends { Appends V.shift V.same self.old.head self.old.slots.now length value self.new.head self.new.slots.now result }
        ensures same_row { SameRow self.old self.new }
    {
        if length == 0 {
            return Err(Refusal::EmptyLength);
        }
        let extents = self.extents().ok_or(Refusal::BrokenTable)?;
        let end = extents.length;
        if length > LIMIT - end {
            return Err(Refusal::PastLimit);
        }
        let next = extents.slot_from(extents.count_before(end), end, value);
        let plan = Plan {
            front: self.head.count,
            middle: next,
            tail: None,
            back: self.head.count,
            length: end + length,
        };
        self.splice(plan)
    }
}
