// Where a target lies.

#[derive(Clone, Copy, Debug, PartialEq, Eq)]
pub enum Place {
    Zero,
    Error,
    // A sector of the device with that number in the roster.
    At { device: u8, sector: u64 },
}
