// Areas: sectors of one device that belong together.
ghost use Rattle.std.specs.Prelude.{◌↔◌, IsTrue};
ghost use Rattle.roster.specs.Rosters.{Share};

// The sectors of a device from `from` up to, not with, `to`.
#[derive(Clone, Copy, Debug, PartialEq, Eq)]
pub struct Area {
    pub device: u8,
    pub from: u64,
    pub to: u64,
}

impl Area {
    // Whether a sector lies in both.
    #[tactic(auto, using(crate::proofs::Areas::share_tested))]
    pub(crate) fn meets(self, other: Area) -> bool
        ensures { IsTrue result ↔ Share self other }
    {
        self.device == other.device && self.from.max(other.from) < self.to.min(other.to)
    }
}
