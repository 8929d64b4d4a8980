// What a roster lists, as plain numbers.
ghost use Rattle.std.specs.Prelude.{◌≡◌, ◌<◌, ◌≤◌, length, take, replicate, MatchOption};
ghost use Rattle.roster.specs.Rosters.{device_at, no_column, no_device};

use crate::listing::{Blank, Listing};

// A block device by its kernel numbers, with its size in sectors.
#[derive(Clone, Copy, Debug, Default, PartialEq, Eq)]
pub struct Device {
    pub major: u32,
    pub minor: u32,
    pub size: u64,
}

impl Blank for Device {
    ghost blank = { no_device };

    fn blank() -> Self {
        Device::default()
    }
}

// A column of a stripe set: its area begins at sector `base` of the device with that number in the roster.
#[derive(Clone, Copy, Debug, Default, PartialEq, Eq)]
pub struct Column {
    pub device: u8,
    pub base: u64,
}

// The numbers of a stripe set; the first `width` columns count.
// An array, not an ArrayVec, since a stripe set is made from a copy of the whole entry, and an ArrayVec is no Copy type.
#[derive(Clone, Copy, Debug, Default, PartialEq, Eq)]
pub struct SetEntry {
    pub width: usize,
    pub chunk: u64,
    pub rows: u64,
    pub columns: [Column; 8],
}

impl Blank for SetEntry {
    ghost blank = { record { width = 0; chunk = 0; rows = 0; columns = replicate 8 no_column } };

    fn blank() -> Self {
        SetEntry::default()
    }
}

impl SetEntry {
    // The columns that count.
    pub fn counted(&self) -> &[Column]
        ensures columns { result.now ≡ take self.now.width self.now.columns }
        ensures many { self.now.width ≤ 8 → length result.now ≡ self.now.width }
    {
        &self.columns[..self.width.min(8)]
    }
}

// The devices and the sets that are listed, each by its place.
#[derive(Clone, Copy, Debug, PartialEq, Eq)]
pub struct Entries {
    pub devices: Listing<Device, 32>,
    pub sets: Listing<SetEntry, 16>,
}

impl Entries {
    // The device with a number, if it is listed.
    pub fn device(&self, number: u8) -> Option<Device>
        ensures { MatchOption result (length self.now.devices.items ≤ number) (λ d. (number < length self.now.devices.items) × (d ≡ device_at self.now number)) }
    {
        self.devices.get(usize::from(number)).copied()
    }
}
