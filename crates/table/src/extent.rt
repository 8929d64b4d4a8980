// Heads, slots and runs.
ghost use Rattle.std.specs.Prelude.{◌≡◌, ◌+◌, ◌≤◌, ◌↔◌, IsTrue};
ghost use Rattle.table.specs.Extents.{next, value_at};

use crate::kind::Value;

// How many slots count, and how many sectors they cover.
#[derive(Clone, Copy, Debug, Default, PartialEq, Eq)]
pub struct Head {
    pub count: usize,
    pub length: u64,
}

// An extent: it runs from its start to the next slot's start, or to the table's length.
#[derive(Clone, Copy, Debug, Default, PartialEq, Eq)]
pub struct Slot<V> {
    pub start: u64,
    pub value: V,
}

// So many sectors from a start on.
#[derive(Clone, Copy, Debug, Default, PartialEq, Eq)]
pub struct Run {
    pub start: u64,
    pub length: u64,
}

impl<V: Value> Slot<V> {
    // The value that this extent has at a sector: past its start, its own further on.
    pub fn value_at(self, sector: u64) -> V
        ensures { result ≡ value_at V.shift self sector }
    {
        self.value.shifted(sector.saturating_sub(self.start))
    }

    // Whether the next slot only says what this extent has there.
    pub(crate) fn goes_on_with(self, next: Slot<V>) -> bool
        ensures { result ≡ V.same (value_at V.shift self next.start) next.value }
    {
        self.value_at(next.start).is_same(next.value)
    }
}

// Where an extent ends that these slots lie behind, in a table of so many sectors.
pub fn end_of<V: Value>(behind: &[Slot<V>], length: u64) -> u64
    ensures { result ≡ next behind.now length }
{
    behind.first().map_or(length, |slot| slot.start)
}

impl Run {
    // Whether the run ends at or before a length.
    pub fn is_inside(self, length: u64) -> bool
        ensures { IsTrue result ↔ (self.start + self.length ≤ length) }
    {
        self.length <= length && self.start <= length - self.length
    }
}
