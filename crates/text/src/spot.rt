// A device by its numbers, and a sector on it.

#[derive(Clone, Copy, Debug, Default, PartialEq, Eq)]
pub struct Spot {
    pub major: u64,
    pub minor: u64,
    pub sector: u64,
}
