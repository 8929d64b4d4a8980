// The checks that a device or a set passes before a roster lists it.
ghost use Rattle.std.specs.Prelude.{◌≡◌, ◌≤◌, ◌↔◌, IsTrue, length, All};
ghost use Rattle.table.specs.Checks.{Answers};
ghost use Rattle.roster.specs.Refusals.{number_of};
ghost use Rattle.roster.specs.Rosters.{SoundDevice, NoClash};
ghost use Rattle.roster.specs.Additions.{Apart, Unlisted, DeviceJudged, NamesListed, entry_of, set_checks, with_set};

use crate::entry::{Column, Device, Entries, SetEntry};
use crate::open::OpenRoster;
use crate::refusal::RosterRefusal;
use crate::stripe::Stripe;
use table::normal::LIMIT;

impl Device {
    // Whether numbers and size are in range.
    fn is_sound(&self) -> bool
        ensures { IsTrue result ↔ SoundDevice self.now }
    {
        self.major <= 4095 && self.minor <= 1048575 && (1..=LIMIT).contains(&self.size)
    }
}

impl SetEntry {
    // The entry of a set with these columns.
    #[tactic(auto, using(crate::proofs::Added::padding))]
    fn new(chunk: u64, rows: u64, columns: &[Column]) -> SetEntry
        requires { length columns.now ≤ 8 }
        ensures { result ≡ entry_of chunk rows columns.now }
    {
        let mut all = [Column::default(); 8];
        all[..columns.len()].copy_from_slice(columns);
        SetEntry {
            width: columns.len(),
            chunk,
            rows,
            columns: all,
        }
    }
}

impl Entries {
    // Whether no listed device has the numbers of this one.
    fn is_unlisted(&self, device: Device) -> bool
        ensures { IsTrue result ↔ Unlisted self.now device }
    {
        self.devices.iter().all(|listed| listed.major != device.major
            || listed.minor != device.minor)
    }

    // Whether every column names a listed device.
    fn names_listed(&self, columns: &[Column]) -> bool
        ensures { IsTrue result ↔ NamesListed self.now columns.now }
    {
        columns
            .iter()
            .all(|column| self.device(column.device).is_some())
    }
}

impl OpenRoster {
    // Refuses a device if the roster is full, its numbers or size are out of range, or it is listed.
    pub(crate) fn judge_device(&self, device: Device) -> Result<(), RosterRefusal>
        ensures { DeviceJudged self.now.entries device result }
    {
        if self.entries.devices.is_full() {
            return Err(RosterRefusal::RosterFull);
        }
        if !device.is_sound() || !self.entries.is_unlisted(device) {
            return Err(RosterRefusal::BadDevice);
        }
        Ok(())
    }

    // Whether no listed set shares a sector with this one.
    fn is_apart_from_listed(&self, stripe: &Stripe<'_>) -> bool
        ensures { IsTrue result ↔ All (λ e. Apart e stripe.now.numbers.now) self.now.entries.sets.items }
    {
        let sets = self.entries.sets.as_slice();
        for numbers in sets {
            let listed = Stripe { numbers };
            if !listed.is_apart(stripe) {
                return false;
            }
        }
        true
    }

    // Whether a set would share no sector with the listed ones or within itself.
    #[tactic(auto, using(crate::proofs::Added::apart_judged))]
    fn is_apart(&self, stripe: &Stripe<'_>) -> bool
        ensures { IsTrue result ↔ NoClash (with_set self.now.entries stripe.now.numbers.now) }
    {
        self.is_apart_from_listed(stripe) && stripe.is_apart_within()
    }

    // Judges a set, and answers the entry of one that passes.
    pub(crate) fn judge_set(
        &self,
        chunk: u64,
        rows: u64,
        columns: &[Column],
    ) -> Result<SetEntry, RosterRefusal>
        ensures { Answers number_of (set_checks self.now.entries chunk rows columns.now) (Unit {0}) (λ e. e ≡ entry_of chunk rows columns.now) result }
    {
        if !self.entries.names_listed(columns) {
            return Err(RosterRefusal::NoDevice);
        }
        if self.entries.sets.is_full() {
            return Err(RosterRefusal::RosterFull);
        }
        if columns.len() > 8 {
            return Err(RosterRefusal::BadSet);
        }
        let entry = SetEntry::new(chunk, rows, columns);
        let set = self.entries.judged(entry).ok_or(RosterRefusal::BadSet)?;
        if !self.is_apart(&set.stripe()) {
            return Err(RosterRefusal::SharedArea);
        }
        Ok(entry)
    }
}
