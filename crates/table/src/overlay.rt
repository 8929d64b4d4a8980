// The overlay of a top over a base, written into a third table.
ghost use Rattle.std.specs.Prelude.{◌≡◌, ◌^◌, ◌<◌, length, if◌then◌else◌, OnOk, IfErr};
ghost use Rattle.std.specs.Iterator.{YieldsFirst, item_count};
ghost use Rattle.table.specs.Calls.{Overlays};
ghost use Rattle.table.specs.Rows.{SameRow};
ghost use Rattle.table.specs.Steps.{Splices};
ghost use Rattle.table.specs.Walks.{Lays, laid, left, slots_left, slots_of};

use crate::extent::{Head, Slot, end_of};
use crate::extents::Extents;
use crate::kind::Value;
use crate::refusal::Refusal;
use crate::table::{Table, View};

// The pieces of a top over a base that are left. A piece starts wherever an extent of either does.
// Of both tables those slots are left whose extents go on past `at`, where the next piece starts.
#[derive(Clone, Copy)]
struct Pieces<'a, V> {
    tops: &'a [Slot<V>],
    bases: &'a [Slot<V>],
    length: u64,
    at: u64,
}

impl<'a, V: Value> Pieces<'a, V> {
    // All pieces of a top over a base of the same length.
    fn new(top: &Extents<'a, V>, base: &Extents<'a, V>) -> Pieces<'a, V>
        requires level { top.now.length ≡ base.now.length }
        ensures lays { Lays V.shift V.same (laid V.shift V.clear top.now.slots.now base.now.slots.now) top.now.length (slots_of V.shift V.same V.clear result) }
        ensures length { result.length ≡ top.now.length }
    {
        Pieces {
            tops: top.slots,
            bases: base.slots,
            length: top.length,
            at: 0,
        }
    }

    // The slots that they make.
    fn slots(self) -> Slots<'a, V>
        ensures { slots_left V.shift V.same V.clear result ≡ slots_of V.shift V.same V.clear self.entry }
    {
        Slots {
            pieces: self,
            last: None,
        }
    }
}

impl<V: Value> Iterator for Pieces<'_, V> {
    type Item = Slot<V>;

    ghost next_gives = { YieldsFirst (left V.shift V.clear) };

    ghost remaining = { item_count (left V.shift V.clear) };

    fn next(&mut self) -> Option<Slot<V>> {
        let (top, tops) = self.tops.split_first()?;
        let (base, bases) = self.bases.split_first()?;
        let piece = Slot {
            start: self.at,
            value: value_over(top.value_at(self.at), base.value_at(self.at)),
        };
        let top_end = end_of(tops, self.length);
        let base_end = end_of(bases, self.length);
        // An extent that ends with the piece is done, and both may be.
        if top_end <= base_end {
            self.tops = tops;
        }
        if base_end <= top_end {
            self.bases = bases;
        }
        self.at = top_end.min(base_end);
        Some(piece)
    }
}

// The top's value, or the base's where the top's is clear.
fn value_over<V: Value>(top: V, base: V) -> V
    ensures { result ≡ (if V.clear top then base else top) }
{
    if top.is_clear() {
        return base;
    }
    top
}

// The slots that pieces make which are left: a piece that continues the last slot makes none.
#[derive(Drop)]
struct Slots<'a, V> {
    pieces: Pieces<'a, V>,
    last: Option<Slot<V>>,
}

impl<V: Value> Iterator for Slots<'_, V> {
    type Item = Slot<V>;

    ghost next_gives = { YieldsFirst (slots_left V.shift V.same V.clear) };

    ghost remaining = { item_count (slots_left V.shift V.same V.clear) };

    fn next(&mut self) -> Option<Slot<V>> {
        while let Some(piece) = self.pieces.next() {
            if self.last.is_none_or(|slot| !slot.goes_on_with(piece)) {
                self.last = Some(piece);
                return self.last;
            }
        }
        None
    }
}

impl<'a, V: Value> Table<'a, V> {
    // Makes the slots that the pieces make the table's, or changes nothing where the row has no room for them.
    fn fill(&mut self, pieces: Pieces<'_, V>) -> Result<(), Refusal>
        requires few { length (slots_of V.shift V.same V.clear pieces) < 2 ^ 64 }
        ensures done { OnOk result ((self.new.head.length ≡ pieces.entry.length) × Splices self.old.slots.now (slots_of V.shift V.same V.clear pieces.entry) self.new.slots.now self.new.head.count) }
        ensures full { IfErr result (λ e. (e ≡ Refusal.NoRoom) × (self.new.head ≡ self.old.head) × (self.new.slots.now ≡ self.old.slots.now) × (length self.old.slots.now < length (slots_of V.shift V.same V.clear pieces.entry))) }
        ensures same_row { SameRow self.old self.new }
    {
        let count = pieces.slots().count();
        if count > self.slots.len() {
            return Err(Refusal::NoRoom);
        }
        for (k, slot) in pieces.slots().enumerate() {
            self.slots[k] = slot;
        }
        self.head = Head {
            count,
            length: pieces.length,
        };
        Ok(())
    }

    // Writes the top over the base: the top's values, or the base's where the top's are clear.
    #[tactic(auto, using(crate::proofs::Walking::lays_leaves, crate::proofs::Tables::fits_of))]
    pub fn overlay(&mut self, top: &View<'_, V>, base: &View<'_, V>) -> Result<(), Refusal>
        ensures overlays { Overlays V.shift V.same V.clear top.now.head top.now.slots.now base.now.head base.now.slots.now self.old.head self.old.slots.now self.new.head self.new.slots.now result }
        ensures same_row { SameRow self.old self.new }
    {
        let over = top.extents().ok_or(Refusal::BrokenTable)?;
        let under = base.extents().ok_or(Refusal::BrokenTable)?;
        if over.length != under.length {
            return Err(Refusal::LengthsDiffer);
        }
        self.fill(Pieces::new(&over, &under))
    }
}
