// The counted slots of a table that is normal.
ghost use Rattle.std.specs.Prelude.{◌≡◌, ℕ, ◌+◌, ◌≤◌, ◌<◌, ◌↔◌, ◌^◌, length, take, IsSome, IfSome};
ghost use Rattle.table.specs.Steps.{Told, Next};
ghost use Rattle.table.specs.Extents.{Covers, Covers-prop, Distinct, Distinct-prop, Normal, at, before, value_at};

use crate::extent::Slot;
use crate::kind::Value;
use crate::table::{Table, View};

// Slots that cover the sectors below a length, none of which continues the one before it.
#[derive(Drop)]
pub struct Extents<'a, V: Value> {
    pub(crate) slots: &'a [Slot<V>],
    pub(crate) length: u64,
    ghost covers: { Covers slots.now length } by { Covers-prop slots.now length },
    ghost bounded: { length ≤ 2 ^ 40 },
    ghost distinct: { Distinct V.shift V.same slots.now } by { Distinct-prop V.shift V.same slots.now },
}

impl<'a, V: Value> Extents<'a, V> {
    // How many slots start below a sector.
    pub(crate) fn count_before(&self, sector: u64) -> usize
        ensures { result ≡ before sector self.now.slots.now }
    {
        self.slots.partition_point(|slot| slot.start < sector)
    }

    // The slot whose extent holds a sector, by how many slots start at it or below it.
    #[inline(always)]
    pub(crate) fn extent_of(&self, count: usize, sector: u64) -> Slot<V>
        requires counted { count ≡ before (sector + 1) self.now.slots.now }
        requires inside { sector < self.now.length }
        ensures starts { result.start ≤ sector }
        ensures value { (d : V) → value_at V.shift result sector ≡ at V.shift self.now.slots.now d sector }
    {
        let slots = self.slots;
        slots[count - 1]
    }

    // The same where they are not counted yet.
    #[inline(always)]
    pub(crate) fn extent_at(&self, sector: u64) -> Slot<V>
        requires { sector < self.now.length }
        ensures starts { result.start ≤ sector }
        ensures value { (d : V) → value_at V.shift result sector ≡ at V.shift self.now.slots.now d sector }
    {
        let count = self.count_before(sector + 1);
        self.extent_of(count, sector)
    }

    // The value with which the extent before a sector, or before the end, goes on there; none at sector 0.
    // So many slots start below it.
    #[tactic(auto, using(crate::proofs::Ends::last_tells))]
    fn told_at(&self, count: usize, start: u64) -> Option<V>
        requires counted { count ≡ before start self.now.slots.now }
        requires inside { start ≤ self.now.length }
        ensures { (d : V) → Told V.shift V.same (at V.shift self.now.slots.now d) start result }
    {
        if start == 0 {
            return None;
        }
        Some(self.extent_of(count, start - 1).value_at(start))
    }

    // The slot that a value begins at a sector or at the end, or none where the extent before goes on with it.
    // So many slots start below it.
    #[inline(always)]
    pub(crate) fn slot_from(&self, count: usize, start: u64, value: V) -> Option<Slot<V>>
        requires counted { count ≡ before start self.now.slots.now }
        requires inside { start ≤ self.now.length }
        ensures { (d : V) → Next V.shift V.same (at V.shift self.now.slots.now d) start value result }
    {
        slot_at(self.told_at(count, start), start, value)
    }
}

// The slot that a value begins at a sector, or none where the sector before is told to go on with it.
pub(crate) fn slot_at<V: Value>(told: Option<V>, start: u64, value: V) -> Option<Slot<V>>
    ensures { (m : ℕ → V) → Told V.shift V.same m start told → Next V.shift V.same m start value result }
{
    if told.is_some_and(|told| told.is_same(value)) {
        return None;
    }
    Some(Slot { start, value })
}

impl<'a, V: Value> View<'a, V> {
    // The counted slots, if the table is normal.
    #[inline(always)]
    pub(crate) fn extents(&self) -> Option<Extents<'a, V>>
        ensures normal { IsSome result ↔ Normal V.shift V.same self.now.head self.now.slots.now }
        ensures slots { IfSome result (λ e. e.slots.now ≡ take self.now.head.count self.now.slots.now) }
        ensures length { IfSome result (λ e. e.length ≡ self.now.head.length) }
    {
        if !self.is_normal() {
            return None;
        }
        Some(Extents {
            slots: &self.slots[..self.head.count],
            length: self.head.length,
        })
    }
}

impl<'a, V: Value> Table<'a, V> {
    // The same of a table that is written.
    #[inline(always)]
    pub(crate) fn extents(&self) -> Option<Extents<'_, V>>
        ensures normal { IsSome result ↔ Normal V.shift V.same self.now.head self.now.slots.now }
        ensures slots { IfSome result (λ e. e.slots.now ≡ take self.now.head.count self.now.slots.now) }
        ensures length { IfSome result (λ e. e.length ≡ self.now.head.length) }
    {
        self.view().extents()
    }
}
