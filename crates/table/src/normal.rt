// Whether a table is normal.
ghost use Rattle.std.specs.Prelude.{◌↔◌, IsTrue};
ghost use Rattle.table.specs.Extents.{Normal};

use crate::extent::Head;
use crate::kind::Value;
use crate::table::View;

// The largest length of a table, in sectors.
pub const LIMIT: u64 = 1 << 40;

impl<'a, V: Value> View<'a, V> {
    // Whether a table is normal: its slots suffice, its length is within the limit, its extents cover the length,
    // and none continues the one before it.
    pub fn is_normal(&self) -> bool
        ensures { IsTrue result ↔ Normal V.shift V.same self.now.head self.now.slots.now }
    {
        let Head { count, length } = self.head;
        if count > self.slots.len() || length > LIMIT {
            return false;
        }
        let Some((first, rest)) = self.slots[..count].split_first() else {
            return length == 0;
        };
        if first.start != 0 {
            return false;
        }
        let mut last = first;
        for slot in rest {
            if slot.start <= last.start {
                return false;
            }
            if last.goes_on_with(*slot) {
                return false;
            }
            last = slot;
        }
        last.start < length
    }
}
