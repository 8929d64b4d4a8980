// A list of edits applied to a fresh table, one after the other.
ghost use Rattle.std.specs.Prelude.{◌≡◌, length, drop};
ghost use Rattle.table.specs.Histories.{call_of, calls};
ghost use Rattle.table.specs.Rows.{SameRow};
ghost use Rattle.table.specs.Laws.{Does, Ran, Replays, TableLaws};

use crate::extent::{Head, Run, Slot};
use crate::kind::Value;
use crate::refusal::Refusal;
use crate::table::{Table, View};

// A call on a table, by its arguments.
#[derive(Clone, Copy, Debug, PartialEq, Eq)]
pub enum Edit<'a, V> {
    Append { length: u64, value: V },
    Assign { run: Run, value: V },
    Cut { length: u64 },
    Overlay { top: View<'a, V>, base: View<'a, V> },
}

impl<'a, V: Value> Table<'a, V> {
    // Makes one call.
    pub fn apply(&mut self, edit: &Edit<'_, V>) -> Result<(), Refusal>
        ensures does { Does V.shift V.same V.clear (call_of edit.now) self.old.head self.old.slots.now self.new.head self.new.slots.now result }
        ensures same_row { SameRow self.old self.new }
    {
        match *edit {
            Edit::Append { length, value } => self.append(length, value),
            Edit::Assign { run, value } => self.assign(run, value),
            Edit::Cut { length } => self.cut(length),
            Edit::Overlay { top, base } => self.overlay(&top, &base),
        }
    }

    // Makes the calls one after the other, as many as there are answers for.
    fn apply_all(&mut self, edits: &[Edit<'_, V>], answers: &mut [Result<(), Refusal>])
        ensures ran { Ran V.shift V.same V.clear (calls edits.now answers.new) self.old.head self.old.slots.now self.new.head self.new.slots.now }
        ensures rest { drop (length edits.now) answers.new ≡ drop (length edits.now) answers.old }
        ensures same_row { SameRow self.old self.new }
    {
        let many = edits.len().min(answers.len());
        for (i, edit) in edits[..many].iter().enumerate() {
            answers[i] = self.apply(edit);
        }
    }
}

// Applies the edits to a fresh table in the lent slots, as many as there are answers for, and answers its head.
// An answer is what the call gave.
pub fn replay<V: Value>(
    slots: &mut [Slot<V>],
    edits: &[Edit<'_, V>],
    answers: &mut [Result<(), Refusal>],
) -> Head
    ensures replays { Replays V.shift V.same V.clear (calls edits.now answers.new) slots.old result slots.new }
    ensures rest { drop (length edits.now) answers.new ≡ drop (length edits.now) answers.old }
    ensures laws { TableLaws V.shift V.same V.clear }
{
    let mut table = Table::new(slots);
    table.apply_all(edits, answers);
    table.head
}
