// The lines of a volume, one after another.
ghost use Rattle.std.specs.Prelude.{◌≡◌, [], MatchOption};
ghost use Rattle.std.specs.Iterator.{YieldsFirst, item_count};
ghost use Rattle.roster.specs.Places.{Volume};
ghost use Rattle.text.specs.Printing.{lines_of};
ghost use Rattle.text.specs.Walks.{Goes, Goes-prop, Within, Within-prop, lines_on, Steps};

use crate::line::Line;
use crate::step::first_line;
use roster::closed::ClosedRoster;
use roster::target::Target;
use table::extent::{Head, Run, Slot, end_of};
use table::table::View;

// The lines that are left: those of the extents that the slots begin, in a table of so many sectors, from a sector of the first on.
#[derive(Drop)]
pub struct Lines<'a> {
    roster: &'a ClosedRoster,
    slots: &'a [Slot<Target>],
    size: u64,
    at: u64,
    ghost goes: { Goes roster.now.entries slots.now size } by { Goes-prop roster.now.entries slots.now size },
    ghost within: { Within slots.now size at } by { Within-prop slots.now size at },
}

impl<'a> Lines<'a> {
    // The lines of a volume, if the table is one.
    #[tactic(auto, using(crate::proofs::Showing::goes_volume))]
    pub(crate) fn new(roster: &'a ClosedRoster, table: &View<'a, Target>) -> Option<Lines<'a>>
        ensures { MatchOption result (Volume roster.now.entries table.now.head table.now.slots.now → ⊥) (λ l. Volume roster.now.entries table.now.head table.now.slots.now × (lines_on l.roster.now.entries l.slots.now l.size l.at ≡ lines_of roster.now.entries table.now.head table.now.slots.now)) }
    {
        if !roster.is_volume(table) {
            return None;
        }
        let Head { count, length } = table.head;
        Some(Lines {
            roster,
            slots: &table.slots[..count],
            size: length,
            at: 0,
        })
    }

    // The same lines once more; a derive is not to be had over ghost fields.
    pub(crate) fn again(&self) -> Lines<'a>
        ensures { lines_on result.roster.now.entries result.slots.now result.size result.at ≡ lines_on self.now.roster.now.entries self.now.slots.now self.now.size self.now.at }
    {
        Lines {
            roster: self.roster,
            slots: self.slots,
            size: self.size,
            at: self.at,
        }
    }

    // The first line, and the slots and the sector from which the others go on.
    #[tactic(auto, using(crate::proofs::Walking::steps_on))]
    fn first(&self) -> Option<(Line, &'a [Slot<Target>], u64)>
        ensures { MatchOption result (lines_on self.now.roster.now.entries self.now.slots.now self.now.size self.now.at ≡ []) (λ f. Steps self.now.roster.now.entries self.now.slots.now self.now.size self.now.at f.0 f.1.now f.2) }
    {
        let (slot, behind) = self.slots.split_first()?;
        let end = end_of(behind, self.size);
        let rest = Run {
            start: self.at,
            length: end - self.at,
        };
        let line = first_line(self.roster, slot.value_at(self.at), rest);
        if line.length < rest.length {
            let at = self.at + line.length;
            return Some((line, self.slots, at));
        }
        Some((line, behind, end))
    }
}

impl Iterator for Lines<'_> {
    type Item = Line;

    ghost next_gives = { YieldsFirst (λ s. lines_on s.roster.now.entries s.slots.now s.size s.at) };

    ghost remaining = { item_count (λ s. lines_on s.roster.now.entries s.slots.now s.size s.at) };

    fn next(&mut self) -> Option<Line> {
        let (line, slots, at) = self.first()?;
        self.slots = slots;
        self.at = at;
        Some(line)
    }
}
