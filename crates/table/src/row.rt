// Moving and writing slots in a row, in place.
ghost use Rattle.std.specs.Prelude.{◌≡◌, ◌+◌, ◌<◌, ◌≤◌, length, OnOk, IfErr};
ghost use Rattle.std.specs.Option.{option_to_list};
ghost use Rattle.std.proofs.Math.Seq.{paste};
ghost use Rattle.table.specs.Rows.{SameRow};
ghost use Rattle.table.specs.Steps.{planned, Splices};

use crate::extent::{Head, Slot};
use crate::kind::Value;
use crate::refusal::Refusal;
use crate::table::Table;

// What an edit leaves of a table: so many slots of its front, up to two new ones, its slots from `back` on, and its length.
#[derive(Clone, Copy)]
pub(crate) struct Plan<V> {
    pub(crate) front: usize,
    pub(crate) middle: Option<Slot<V>>,
    pub(crate) tail: Option<Slot<V>>,
    pub(crate) back: usize,
    pub(crate) length: u64,
}

// Writes a slot, if there is one.
#[tactic(auto, using(crate::proofs::Rows::paste_one))]
fn place<V: Value>(slots: &mut [Slot<V>], at: usize, slot: Option<Slot<V>>)
    requires { at + length (option_to_list slot) ≤ length slots.old }
    ensures { slots.new ≡ paste slots.old at (option_to_list slot) (length (option_to_list slot)) }
{
    if let Some(slot) = slot {
        slots[at] = slot;
    }
}

impl<'a, V: Value> Table<'a, V> {
    // Makes the table what the plan says, or changes nothing where the row has no room for it.
    #[inline(always)]
    pub(crate) fn splice(&mut self, plan: Plan<V>) -> Result<(), Refusal>
        requires front { plan.front ≤ plan.back }
        requires back { plan.back ≤ self.old.head.count }
        requires room { self.old.head.count ≤ length self.old.slots.now }
        ensures done { OnOk result ((self.new.head.length ≡ plan.length) × Splices self.old.slots.now (planned self.old.slots.now self.old.head.count plan) self.new.slots.now self.new.head.count) }
        ensures full { IfErr result (λ e. (e ≡ Refusal.NoRoom) × (self.new.head ≡ self.old.head) × (self.new.slots.now ≡ self.old.slots.now) × (length self.old.slots.now < length (planned self.old.slots.now self.old.head.count plan))) }
        ensures same_row { SameRow self.old self.new }
    {
        let middle = plan.front + usize::from(plan.middle.is_some());
        let tail = middle + usize::from(plan.tail.is_some());
        let count = tail + (self.head.count - plan.back);
        if count > self.slots.len() {
            return Err(Refusal::NoRoom);
        }
        self.slots.copy_within(plan.back..self.head.count, tail);
        place(self.slots, plan.front, plan.middle);
        place(self.slots, middle, plan.tail);
        self.head = Head {
            count,
            length: plan.length,
        };
        Ok(())
    }
}
