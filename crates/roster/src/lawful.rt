// Which targets are lawful for a run.
ghost use Rattle.std.specs.Prelude.{◌<◌, ◌↔◌, IsTrue};
ghost use Rattle.roster.specs.declared.target.Target.TheVariants.{Linear, Striped};
ghost use Rattle.roster.specs.Rosters.{AllClear};
ghost use Rattle.roster.specs.Judgements.{TargetJudged};

use crate::area::Area;
use crate::closed::ClosedRoster;
use crate::refusal::RosterRefusal;
use crate::stripe::Stripe;
use crate::target::Target;
use table::extent::Run;

impl ClosedRoster {
    // Whether no area of a listed set shares a sector with a run.
    fn all_clear(&self, run: Area) -> bool
        ensures { IsTrue result ↔ AllClear self.now.entries run }
    {
        let sets = self.entries.sets.as_slice();
        for numbers in sets {
            let listed = Stripe { numbers };
            if !listed.is_clear(run) {
                return false;
            }
        }
        true
    }

    // Judges a target for a run of so many sectors.
    pub(crate) fn judge_target(&self, target: Target, length: u64) -> Result<(), RosterRefusal>
        requires { 0 < length }
        ensures { TargetJudged self.now.entries target length result }
    {
        match target {
            Target::Zero | Target::Error => Ok(()),
            Target::Linear { device, sector } => self.judge_linear(device, sector, length),
            Target::Striped { set, offset } => self.judge_striped(set, offset, length),
        }
    }

    // Judges sectors of a device.
    fn judge_linear(&self, device: u8, sector: u64, length: u64) -> Result<(), RosterRefusal>
        requires { 0 < length }
        ensures { TargetJudged self.now.entries (Linear device sector) length result }
    {
        let size = self.listed_device(device)?.size;
        let run = Run {
            start: sector,
            length,
        };
        if !run.is_inside(size) {
            return Err(RosterRefusal::LeavesTarget);
        }
        let area = Area {
            device,
            from: sector,
            to: sector + length,
        };
        if !self.all_clear(area) {
            return Err(RosterRefusal::TouchesArea);
        }
        Ok(())
    }

    // Judges offsets of a set.
    fn judge_striped(&self, set: u8, offset: u64, length: u64) -> Result<(), RosterRefusal>
        requires { 0 < length }
        ensures { TargetJudged self.now.entries (Striped set offset) length result }
    {
        let size = self.listed_set(set)?.size();
        let run = Run {
            start: offset,
            length,
        };
        if !run.is_inside(size) {
            return Err(RosterRefusal::LeavesTarget);
        }
        Ok(())
    }
}
