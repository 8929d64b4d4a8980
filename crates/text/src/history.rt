// A list of edits applied to a fresh table, with all the laws of tables and their prints in one contract.
ghost use Rattle.std.specs.Prelude.{◌≡◌, length, drop};
ghost use Rattle.table.specs.Histories.{calls};
ghost use Rattle.table.specs.Laws.{Replays, TableLaws};
ghost use Rattle.text.specs.Laws.{PrintsTell};

use table::extent::{Head, Slot};
use table::history;
use table::history::Edit;
use table::kind::Value;
use table::refusal::Refusal;

// Carries the law of prints, which is about targets alone, to the call below.
fn prints_tell()
    ensures { PrintsTell }
{}

// Applies the edits to a fresh table in the lent slots, as many as there are answers for, and answers its head.
pub fn replay<V: Value>(
    slots: &mut [Slot<V>],
    edits: &[Edit<'_, V>],
    answers: &mut [Result<(), Refusal>],
) -> Head
    ensures replays { Replays V.shift V.same V.clear (calls edits.now answers.new) slots.old result slots.new }
    ensures rest { drop (length edits.now) answers.new ≡ drop (length edits.now) answers.old }
    ensures laws { TableLaws V.shift V.same V.clear }
    ensures prints_tell { PrintsTell }
{
    prints_tell();
    history::replay(slots, edits, answers)
}
