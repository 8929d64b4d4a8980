// Why a call on text says no.
ghost use Rattle.std.specs.Prelude.{◌≡◌};
ghost use Rattle.text.specs.declared.refusal.TextRefusal.TheVariants.{Roster};
ghost use Rattle.text.specs.Refusals.{number_of, layer_of};

use roster::refusal::RosterRefusal;
pub use table::refusal::Layer;
use thiserror::Error;

#[derive(Clone, Copy, Debug, PartialEq, Eq, Error)]
pub enum TextRefusal {
    #[error("{0}")]
    Roster(RosterRefusal),
    #[error("the text is longer than the buffer")]
    TooLong,
}

impl From<RosterRefusal> for TextRefusal {
    ghost from_gives = { λ e f. f ≡ Roster e };

    fn from(below: RosterRefusal) -> TextRefusal {
        TextRefusal::Roster(below)
    }
}

impl TextRefusal {
    // A refusal from below keeps its number.
    pub fn number(self) -> u8
        ensures { result ≡ number_of self }
    {
        match self {
            TextRefusal::Roster(refusal) => refusal.number(),
            TextRefusal::TooLong => 20,
        }
    }

    // A refusal from below keeps its layer.
    pub fn layer(self) -> Layer
        ensures { result ≡ layer_of self }
    {
        match self {
            TextRefusal::Roster(refusal) => refusal.layer(),
            TextRefusal::TooLong => Layer::Text,
        }
    }
}
