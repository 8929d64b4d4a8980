// Why a roster, or a call on a volume under one, says no.
ghost use Rattle.std.specs.Prelude.{◌≡◌};
ghost use Rattle.roster.specs.declared.refusal.RosterRefusal.TheVariants.{Table};
ghost use Rattle.roster.specs.Refusals.{number_of, layer_of};

pub use table::refusal::Layer;
use table::refusal::Refusal;
use thiserror::Error;

#[derive(Clone, Copy, Debug, PartialEq, Eq, Error)]
pub enum RosterRefusal {
    #[error("{0}")]
    Table(Refusal),
    #[error("no such device is listed")]
    NoDevice,
    #[error("no such set is listed")]
    NoSet,
    #[error("the run leaves its device or set")]
    LeavesTarget,
    #[error("a linear run touches an area")]
    TouchesArea,
    #[error("the roster is full")]
    RosterFull,
    #[error("a device's numbers or size are out of range, or it is listed")]
    BadDevice,
    #[error("a set breaks a rule other than that of shared areas")]
    BadSet,
    #[error("areas would share a sector")]
    SharedArea,
}

impl From<Refusal> for RosterRefusal {
    ghost from_gives = { λ e f. f ≡ Table e };

    fn from(below: Refusal) -> RosterRefusal {
        RosterRefusal::Table(below)
    }
}

impl RosterRefusal {
    // A refusal of the table keeps its number.
    pub fn number(self) -> u8
        ensures { result ≡ number_of self }
    {
        match self {
            RosterRefusal::Table(refusal) => refusal.number(),
            RosterRefusal::NoDevice => 5,
            RosterRefusal::NoSet => 6,
            RosterRefusal::LeavesTarget => 7,
            RosterRefusal::TouchesArea => 8,
            RosterRefusal::RosterFull => 12,
            RosterRefusal::BadDevice => 13,
            RosterRefusal::BadSet => 14,
            RosterRefusal::SharedArea => 15,
        }
    }

    // A refusal of the table keeps its layer.
    pub fn layer(self) -> Layer
        ensures { result ≡ layer_of self }
    {
        match self {
            RosterRefusal::Table(_) => Layer::Table,
            _ => Layer::Roster,
        }
    }
}
