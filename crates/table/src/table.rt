// A table: how far it goes, and the row that it is lent for its slots.
ghost use Rattle.std.specs.Prelude.{◌≡◌};
ghost use Rattle.table.specs.Laws.{fresh_head};

use crate::extent::{Head, Slot};
use crate::kind::Value;

// A table that is only read.
#[derive(Clone, Copy, Debug, PartialEq, Eq)]
pub struct View<'a, V> {
    pub head: Head,
    pub slots: &'a [Slot<V>],
}

// Any head may stand over any row: `is_normal` judges them.
#[derive(Drop)]
pub struct Table<'a, V> {
    pub head: Head,
    pub slots: &'a mut [Slot<V>],
}

impl<'a, V: Value> Table<'a, V> {
    // A table of no sectors in a row.
    pub fn new(slots: &'a mut [Slot<V>]) -> Table<'a, V>
        ensures head { result.head ≡ fresh_head }
        ensures slots { result.slots.now ≡ slots.old }
        ensures same_row { result.slots.ghost_name ≡ slots.entry.ghost_name }
    {
        Table {
            head: Head::default(),
            slots,
        }
    }

    pub fn view(&self) -> View<'_, V>
        ensures head { result.head ≡ self.now.head }
        ensures slots { result.slots.now ≡ self.now.slots.now }
    {
        View {
            head: self.head,
            slots: &*self.slots,
        }
    }
}
