// A line of a device-mapper table: which sectors it maps, and to what.

use crate::spot::Spot;
use arrayvec::ArrayVec;
use std::marker::Model;

// Where the columns of a stripe begin, which clauses see as a list.
#[derive(Debug, Drop, PartialEq, Eq)]
pub struct Columns {
    pub(crate) spots: ArrayVec<Spot, 8>,
}

impl Model for Columns {
    ghost use Rattle.std.specs.Prelude.{List, length, ◌≤◌};
    ghost use Rattle.text.specs.declared.spot.Spot.{Spot};

    ghost Value = { List Spot };

    ghost view = { λ c. c.spots.items };

    ghost inverse = { λ spots. record { spots = record { items = spots } } };

    ghost invariant = { λ c. length c.spots.items ≤ 8 };
}

#[derive(Debug, Drop, PartialEq, Eq)]
pub enum Mapping {
    // Reads as zeros.
    Zero,
    // Nothing lies here.
    Error,
    // The sectors from one on.
    Linear(Spot),
    // Chunks of so many sectors that go round the columns.
    Striped { chunk: u64, columns: Columns },
}

#[derive(Debug, Drop, PartialEq, Eq)]
pub struct Line {
    pub start: u64,
    pub length: u64,
    pub mapping: Mapping,
}
