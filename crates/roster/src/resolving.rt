// Where targets lie under a closed roster.
ghost use Rattle.std.specs.Prelude.{◌≡◌, ◌<◌, ◌≤◌, length, MatchOption};
ghost use Rattle.roster.specs.declared.target.Target.TheVariants.{Linear, Striped};
ghost use Rattle.table.specs.Checks.{Answers, check, end};
ghost use Rattle.roster.specs.Refusals.{number_of};
ghost use Rattle.roster.specs.Rosters.{device_at, set_at};
ghost use Rattle.roster.specs.Places.{SizedBy, HasSet, Below, place_of};
ghost use Rattle.roster.specs.Judgements.{Resolves};

use crate::closed::ClosedRoster;
use crate::entry::Device;
use crate::place::Place;
use crate::refusal::RosterRefusal;
use crate::stripe::{Stripe, StripeSet};
use crate::target::Target;

impl ClosedRoster {
    // The stripe set with a number, if it is listed.
    pub fn stripe_set(&self, number: u8) -> Option<StripeSet>
        ensures { MatchOption result (length self.now.entries.sets.items ≤ number) (λ s. (number < length self.now.entries.sets.items) × (s.numbers ≡ set_at self.now.entries number) × SizedBy self.now.entries s.numbers s.sizes) }
    {
        let numbers = *self.entries.sets.get(usize::from(number))?;
        self.entries.judged(numbers)
    }

    // The device with a number, or the refusal of a number that is not listed.
    pub(crate) fn listed_device(&self, number: u8) -> Result<Device, RosterRefusal>
        ensures { Answers number_of (check 5 (number < length self.now.entries.devices.items) end) (Unit {0}) (λ d. d ≡ device_at self.now.entries number) result }
    {
        self.entries.device(number).ok_or(RosterRefusal::NoDevice)
    }

    // The same of a stripe set.
    pub(crate) fn listed_set(&self, number: u8) -> Result<StripeSet, RosterRefusal>
        ensures { Answers number_of (check 6 (number < length self.now.entries.sets.items) end) (Unit {0}) (λ s. s.numbers ≡ set_at self.now.entries number) result }
    {
        self.stripe_set(number).ok_or(RosterRefusal::NoSet)
    }

    // Where an offset of a listed set lies, if the set has it. What is listed keeps its rules, so it is not judged again.
    pub fn stripe_place(&self, set: u8, offset: u64) -> Option<Place>
        ensures { MatchOption result (HasSet self.now.entries (Striped set offset) × Below self.now.entries (Striped set offset) → ⊥) (λ p. HasSet self.now.entries (Striped set offset) × Below self.now.entries (Striped set offset) × (p ≡ place_of self.now.entries (Striped set offset))) }
    {
        let numbers = self.entries.sets.get(usize::from(set))?;
        Stripe { numbers }.place(offset)
    }

    // Where a target lies.
    pub fn resolve(&self, target: Target) -> Result<Place, RosterRefusal>
        ensures { Resolves self.now.entries target result }
    {
        match target {
            Target::Zero => Ok(Place::Zero),
            Target::Error => Ok(Place::Error),
            Target::Linear { device, sector } => self.resolve_linear(device, sector),
            Target::Striped { set, offset } => self.resolve_striped(set, offset),
        }
    }

    // Where a sector of a device lies.
    fn resolve_linear(&self, device: u8, sector: u64) -> Result<Place, RosterRefusal>
        ensures { Resolves self.now.entries (Linear device sector) result }
    {
        if sector >= self.listed_device(device)?.size {
            return Err(RosterRefusal::LeavesTarget);
        }
        Ok(Place::At { device, sector })
    }

    // Where an offset of a set lies.
    fn resolve_striped(&self, set: u8, offset: u64) -> Result<Place, RosterRefusal>
        ensures { Resolves self.now.entries (Striped set offset) result }
    {
        let stripe = self.listed_set(set)?;
        stripe.place(offset).ok_or(RosterRefusal::LeavesTarget)
    }
}
