// An open roster: devices and sets are added until it is closed.
ghost use Rattle.std.specs.Prelude.{◌≡◌};
ghost use Rattle.roster.specs.Places.{PlacesTell};
ghost use Rattle.roster.specs.Additions.{AddsDevice, AddsSet, nothing};

use crate::closed::{Closed, ClosedRoster};
use crate::entry::{Column, Device, Entries};
use crate::listing::Listing;
use crate::refusal::RosterRefusal;
use crate::roster::Roster;

#[derive(Clone, Copy, Debug, PartialEq, Eq)]
pub struct Open;

pub type OpenRoster = Roster<Open>;

impl OpenRoster {
    // A roster that lists nothing yet.
    pub fn new() -> OpenRoster
        ensures { result.entries ≡ nothing }
    {
        Roster {
            state: Open,
            entries: Entries {
                devices: Listing::new(),
                sets: Listing::new(),
            },
        }
    }

    // Lists a device and answers its number.
    pub fn add_device(&mut self, major: u32, minor: u32, size: u64) -> Result<u8, RosterRefusal>
        ensures { AddsDevice self.old.entries (record { major = major; minor = minor; size = size }) self.new.entries result }
    {
        let device = Device { major, minor, size };
        self.judge_device(device)?;
        let number = self.entries.devices.len();
        self.entries.devices.push(device);
        Ok(number as u8)
    }

    // Lists a stripe set and answers its number.
    pub fn add_set(
        &mut self,
        chunk: u64,
        rows: u64,
        columns: &[Column],
    ) -> Result<u8, RosterRefusal>
        ensures { AddsSet self.old.entries chunk rows columns.now self.new.entries result }
    {
        let entry = self.judge_set(chunk, rows, columns)?;
        let number = self.entries.sets.len();
        self.entries.sets.push(entry);
        Ok(number as u8)
    }

    // Ends the adding; what is listed stays, and places tell targets.
    pub fn close(self) -> ClosedRoster
        ensures listed { result.entries ≡ self.entries }
        ensures tells { PlacesTell result.entries }
    {
        let Roster { entries, .. } = self;
        Roster {
            state: Closed,
            entries,
        }
    }
}
