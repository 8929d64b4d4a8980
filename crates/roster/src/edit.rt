// The calls on volumes under a closed roster.
ghost use Rattle.std.specs.Prelude.{◌≡◌};
ghost use Rattle.table.specs.Histories.{call_of};
ghost use Rattle.table.specs.Rows.{SameRow};
ghost use Rattle.roster.specs.Volumes.{AppendsVolume, AssignsVolume, CutsVolume, OverlaysVolume, DoesVolume, Locates};

use crate::closed::ClosedRoster;
use crate::place::Place;
use crate::refusal::RosterRefusal;
use crate::target::Target;
use table::extent::Run;
use table::history::Edit;
use table::normal::LIMIT;
use table::refusal::Refusal;
use table::table::{Table, View};

impl ClosedRoster {
    // Adds `length` sectors at the end, with the target and what it is further on.
    pub fn append(
        &self,
        volume: &mut Table<'_, Target>,
        length: u64,
        target: Target,
    ) -> Result<(), RosterRefusal>
        ensures appends { AppendsVolume self.now.entries volume.old.head volume.old.slots.now length target volume.new.head volume.new.slots.now result }
        ensures same_row { SameRow volume.old volume.new }
    {
        if length == 0 {
            return Err(Refusal::EmptyLength.into());
        }
        self.judge_volume(&volume.view())?;
        if length > LIMIT - volume.head.length {
            return Err(Refusal::PastLimit.into());
        }
        self.judge_target(target, length)?;
        volume.append(length, target)?;
        Ok(())
    }

    // Gives a run the target, and each of its sectors what the target is there.
    pub fn assign(
        &self,
        volume: &mut Table<'_, Target>,
        run: Run,
        target: Target,
    ) -> Result<(), RosterRefusal>
        ensures assigns { AssignsVolume self.now.entries volume.old.head volume.old.slots.now run target volume.new.head volume.new.slots.now result }
        ensures same_row { SameRow volume.old volume.new }
    {
        if run.length == 0 {
            return Err(Refusal::EmptyLength.into());
        }
        self.judge_volume(&volume.view())?;
        if !run.is_inside(volume.head.length) {
            return Err(Refusal::Outside.into());
        }
        self.judge_target(target, run.length)?;
        volume.assign(run, target)?;
        Ok(())
    }

    // Keeps the first `length` sectors. Only the head is written, so a shared row suffices.
    pub fn cut(&self, volume: &mut View<'_, Target>, length: u64) -> Result<(), RosterRefusal>
        ensures cuts { CutsVolume self.now.entries volume.old.head volume.old.slots.now length volume.new.head volume.new.slots.now result }
        ensures slots { volume.new.slots.now ≡ volume.old.slots.now }
    {
        self.judge_volume(volume)?;
        volume.cut(length)?;
        Ok(())
    }

    // Fills a third table with the top, and with the base where the top's target is error.
    pub fn overlay(
        &self,
        volume: &mut Table<'_, Target>,
        top: &View<'_, Target>,
        base: &View<'_, Target>,
    ) -> Result<(), RosterRefusal>
        ensures overlays { OverlaysVolume self.now.entries top.now.head top.now.slots.now base.now.head base.now.slots.now volume.old.head volume.old.slots.now volume.new.head volume.new.slots.now result }
        ensures same_row { SameRow volume.old volume.new }
    {
        self.judge_volume(top)?;
        self.judge_volume(base)?;
        volume.overlay(top, base)?;
        Ok(())
    }

    // Makes one call on a volume.
    pub fn apply(
        &self,
        volume: &mut Table<'_, Target>,
        edit: &Edit<'_, Target>,
    ) -> Result<(), RosterRefusal>
        ensures does { DoesVolume self.now.entries (call_of edit.now) volume.old.head volume.old.slots.now volume.new.head volume.new.slots.now result }
        ensures same_row { SameRow volume.old volume.new }
    {
        match *edit {
            Edit::Append { length, value } => self.append(volume, length, value),
            Edit::Assign { run, value } => self.assign(volume, run, value),
            Edit::Cut { length } => {
                let mut view = volume.view();
                let answer = self.cut(&mut view, length);
                volume.head = view.head;
                answer
            }
            Edit::Overlay { top, base } => self.overlay(volume, &top, &base),
        }
    }

    // Where a sector of a volume lies.
    pub fn locate(&self, volume: &View<'_, Target>, sector: u64) -> Result<Place, RosterRefusal>
        ensures { Locates self.now.entries volume.now.head volume.now.slots.now sector result }
    {
        self.judge_volume(volume)?;
        let target = volume.look(sector)?;
        self.resolve(target)
    }
}
