// Why a call on a table says no, and which part of the compiler says so.
ghost use Rattle.std.specs.Prelude.{◌≡◌, Some};
ghost use Rattle.table.specs.Refusals.{number_of, layer_text};

use std::fmt;
use thiserror::Error;

#[derive(Clone, Copy, Debug, PartialEq, Eq, Error)]
pub enum Refusal {
    #[error("a run or an append has length 0")]
    EmptyLength,
    #[error("a table read is not normal, or a volume not lawful")]
    BrokenTable,
    #[error("a run, a sector or a cut is outside the table")]
    Outside,
    #[error("an append would pass the largest length")]
    PastLimit,
    #[error("the lengths of top and base differ")]
    LengthsDiffer,
    #[error("the result, when normal, has more extents than the row has slots")]
    NoRoom,
}

impl Refusal {
    pub fn number(self) -> u8
        ensures { result ≡ number_of self }
    {
        match self {
            Refusal::EmptyLength => 1,
            Refusal::BrokenTable => 2,
            Refusal::Outside => 3,
            Refusal::PastLimit => 4,
            Refusal::LengthsDiffer => 9,
            Refusal::NoRoom => 11,
        }
    }
}

// The part of the compiler that a refusal comes from.
#[derive(Clone, Copy, Debug, PartialEq, Eq)]
pub enum Layer {
    Table,
    Roster,
    Text,
}

impl fmt::Display for Layer {
    ghost output = { λ l. Some (layer_text l) };

    fn fmt<W: fmt::Write>(&self, f: &mut fmt::Formatter<W>) -> fmt::Result {
        f.write_str(match self {
            Layer::Table => "table",
            Layer::Roster => "roster",
            Layer::Text => "text",
        })
    }
}
