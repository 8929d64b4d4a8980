// Volumes: tables of targets that are normal, and lawful in every extent.
ghost use Rattle.std.specs.Prelude.{◌<◌, ◌↔◌, IsTrue};
ghost use Rattle.table.specs.Extents.{Covers};
ghost use Rattle.roster.specs.Places.{Lawful, AllLawful, Volume};
ghost use Rattle.roster.specs.Judgements.{VolumeJudged};

use crate::closed::ClosedRoster;
use crate::target::Target;
use table::extent::{Head, Slot};
use table::refusal::Refusal;
use table::table::View;

impl ClosedRoster {
    // Whether a target is lawful for a run of so many sectors.
    fn is_lawful(&self, target: Target, length: u64) -> bool
        requires { 0 < length }
        ensures { IsTrue result ↔ Lawful self.now.entries target length }
    {
        self.judge_target(target, length).is_ok()
    }

    // Whether the target of every slot is lawful over its extent.
    fn all_lawful(&self, slots: &[Slot<Target>], total: u64) -> bool
        requires { Covers slots.now total }
        ensures { IsTrue result ↔ AllLawful self.now.entries slots.now total }
    {
        let Some((first, rest)) = slots.split_first() else {
            return true;
        };
        let mut last = first;
        for slot in rest {
            if !self.is_lawful(last.value, slot.start - last.start) {
                return false;
            }
            last = slot;
        }
        self.is_lawful(last.value, total - last.start)
    }

    // Whether a table is a volume under this roster.
    pub fn is_volume(&self, table: &View<'_, Target>) -> bool
        ensures { IsTrue result ↔ Volume self.now.entries table.now.head table.now.slots.now }
    {
        let Head { count, length } = table.head;
        table.is_normal() && self.all_lawful(&table.slots[..count], length)
    }

    // Refuses a table that is no volume.
    pub(crate) fn judge_volume(&self, table: &View<'_, Target>) -> Result<(), Refusal>
        ensures { VolumeJudged self.now.entries table.now.head table.now.slots.now result }
    {
        self.is_volume(table)
            .then_some(())
            .ok_or(Refusal::BrokenTable)
    }
}
