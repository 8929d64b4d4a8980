// The task: volumes made under the shelf's roster by append, assign, cut and overlay, resolved and printed.
use crate::desk::Desk;
use crate::failure::Failure;
use crate::shelf;
use roster::refusal::RosterRefusal;
use roster::target::Target;
use table::extent::{Run, Slot};
use table::history::Edit;
use table::table::{Table, View};
use text::history::replay;

fn linear(device: u8, sector: u64) -> Target {
    Target::Linear { device, sector }
}

fn append<'a>(length: u64, value: Target) -> Edit<'a, Target> {
    Edit::Append { length, value }
}

fn assign<'a>(start: u64, length: u64, value: Target) -> Edit<'a, Target> {
    Edit::Assign {
        run: Run { start, length },
        value,
    }
}

// What makes the base, up to its print, and the cut behind that.
fn base_edits<'a>() -> [(&'static str, Edit<'a, Target>); 5] {
    [
        ("base: append 100 linear 8:0 0", append(100, linear(0, 0))),
        (
            "base: append 64 of the set from its start",
            append(64, Target::Striped { set: 0, offset: 0 }),
        ),
        ("base: assign 108 4 zero", assign(108, 4, Target::Zero)),
        ("base: assign 164 1 zero", assign(164, 1, Target::Zero)),
        ("base: cut 150", Edit::Cut { length: 150 }),
    ]
}

// What makes the top.
fn top_edits<'a>() -> [(&'static str, Edit<'a, Target>); 4] {
    [
        ("top: append 150 error", append(150, Target::Error)),
        (
            "top: assign 20 10 linear 8:16 0",
            assign(20, 10, linear(1, 0)),
        ),
        ("top: assign 104 4 zero", assign(104, 4, Target::Zero)),
        (
            "top: assign 25 5 linear 8:16 4095",
            assign(25, 5, linear(1, 4095)),
        ),
    ]
}

impl Desk<'_> {
    fn make_base(&self, base: &mut Table<'_, Target>) -> Result<(), Failure> {
        let [first, second, third, fourth, (what, cut)] = base_edits();
        for (what, edit) in [first, second, third, fourth] {
            self.edit(base, what, &edit)?;
        }
        self.show(&base.view(), "base")?;
        self.edit(base, what, &cut)?;
        self.show(&base.view(), "base")
    }

    fn make_top(&self, top: &mut Table<'_, Target>) -> Result<(), Failure> {
        for (what, edit) in top_edits() {
            self.edit(top, what, &edit)?;
        }
        self.show(&top.view(), "top")
    }

    fn lay(
        &self,
        laid: &mut Table<'_, Target>,
        top: &View<'_, Target>,
        base: &View<'_, Target>,
    ) -> Result<(), Failure> {
        let answer = self.roster.overlay(laid, top, base);
        self.outcome("overlay: top on base", answer)?;
        self.show(&laid.view(), "overlay")?;
        for sector in [0u64, 24, 30, 104, 108, 112, 149] {
            self.locate(&laid.view(), "overlay sector", sector)?;
        }
        Ok(())
    }

    // The same table by its history alone: the base's edits, and the overlay as the last, applied to a fresh table.
    fn replay_all<'a>(
        &self,
        row: &mut [Slot<Target>],
        top: View<'a, Target>,
        base: View<'a, Target>,
    ) -> Result<(), Failure> {
        let [first, second, third, fourth, cut] = base_edits().map(|(_, edit)| edit);
        let overlay = Edit::Overlay { top, base };
        let edits = [first, second, third, fourth, cut, overlay];
        let mut answers = [Ok(()); 6];
        let head = replay(row, &edits, &mut answers);
        for answer in answers {
            self.outcome("replay", answer.map_err(RosterRefusal::from))?;
        }
        self.show(&View { head, slots: row }, "replay")
    }
}

pub(crate) fn work(rt: &HostRuntime) -> Result<(), Failure> {
    let desk = Desk {
        rt,
        roster: shelf::describe(rt)?,
    };
    let mut base_row = [Slot::default(); 16];
    let mut top_row = [Slot::default(); 16];
    let mut laid_row = [Slot::default(); 16];
    let mut row = [Slot::default(); 16];
    let mut base = Table::new(&mut base_row);
    let mut top = Table::new(&mut top_row);
    let mut laid = Table::new(&mut laid_row);
    desk.make_base(&mut base)?;
    desk.make_top(&mut top)?;
    desk.lay(&mut laid, &top.view(), &base.view())?;
    desk.replay_all(&mut row, top.view(), base.view())
}
