// The first line of an extent.
ghost use Rattle.std.specs.Prelude.{◌≡◌, ◌*◌, ◌/◌, ◌<◌, map, length};
ghost use Rattle.roster.specs.Rosters.{span, size_of};
ghost use Rattle.roster.specs.declared.target.Target.TheVariants.{Striped};
ghost use Rattle.roster.specs.Places.{Fair};
ghost use Rattle.text.specs.Lines.{further};
ghost use Rattle.text.specs.Printing.{spot_of, column_spots, whole_of, offset_of};
ghost use Rattle.text.specs.Steps.{rows_line, first_line};
ghost use Rattle.text.specs.Walks.{Usable};

use crate::line::{Columns, Line, Mapping};
use crate::spot::Spot;
use arrayvec::ArrayVec;
use roster::closed::ClosedRoster;
use roster::entry::{Entries, SetEntry};
use roster::place::Place;
use roster::target::Target;
use table::extent::Run;

// A sector of a listed device, by the device's numbers.
fn spot_of(entries: &Entries, device: u8, sector: u64) -> Spot
    requires { device < length entries.now.devices.items }
    ensures { result ≡ spot_of entries.now device sector }
{
    let listed = entries.devices[usize::from(device)];
    Spot {
        major: u64::from(listed.major),
        minor: u64::from(listed.minor),
        sector,
    }
}

// How many of the sectors that remain make whole rows.
fn rows_size(row: u64, left: u64) -> u64
    requires { 0 < row }
    ensures { result ≡ left / row * row }
{
    left / row * row
}

// A stripe set under a roster.
#[derive(Drop)]
struct Stripe<'a> {
    entries: &'a Entries,
    set: &'a SetEntry,
    ghost usable: { Usable entries.now set.now },
}

impl Stripe<'_> {
    // How many sectors a row has, over all columns.
    fn row(&self) -> u64
        ensures size { result ≡ self.now.set.now.width * self.now.set.now.chunk }
        ensures some { 0 < result }
    {
        self.set.width as u64 * self.set.chunk
    }

    // Where the columns begin, so many sectors further on.
    fn columns_from(&self, skipped: u64) -> ArrayVec<Spot, 8>
        requires { skipped < span self.now.set.now }
        ensures { result.items ≡ map (further skipped) (column_spots self.now.entries.now self.now.set.now) }
    {
        let mut columns = ArrayVec::new();
        for column in self.set.counted() {
            columns.push(spot_of(self.entries, column.device, column.base + skipped));
        }
        columns
    }

    // All whole rows that remain.
    fn rows_line(&self, offset: u64, rest: Run) -> Line
        requires { offset < size_of self.now.set.now }
        ensures { result ≡ rows_line self.now.set.now.chunk (column_spots self.now.entries.now self.now.set.now) offset rest.start rest.length }
    {
        let row = self.row();
        Line {
            start: rest.start,
            length: rows_size(row, rest.length),
            mapping: Mapping::Striped {
                chunk: self.set.chunk,
                columns: Columns {
                    spots: self.columns_from(offset / row * self.set.chunk),
                },
            },
        }
    }
}

// The first line of an extent of a set: whole rows, if they begin here and one remains, or what is left of a chunk.
#[tactic(auto, using(crate::proofs::Geometry::first_rows_is, crate::proofs::Rosters::usable_set))]
fn set_line(roster: &ClosedRoster, set: u8, offset: u64, rest: Run) -> Line
    requires { Fair roster.now.entries (Striped set offset) }
    ensures { result ≡ first_line (whole_of roster.now.entries (Striped set offset)) (offset_of (Striped set offset)) rest.start rest.length }
{
    let entries = roster.entries();
    let stripe = Stripe {
        entries,
        set: &entries.sets[usize::from(set)],
    };
    let row = stripe.row();
    if offset % row == 0 && rest.length >= row {
        return stripe.rows_line(offset, rest);
    }
    let chunk = stripe.set.chunk;
    let Some(Place::At { device, sector }) = roster.stripe_place(set, offset) else {
        unreachable!()
    };
    Line {
        start: rest.start,
        length: rest.length.min(chunk - offset % chunk),
        mapping: Mapping::Linear(spot_of(entries, device, sector)),
    }
}

// The first line of the rest of an extent, which begins with the target.
pub(crate) fn first_line(roster: &ClosedRoster, target: Target, rest: Run) -> Line
    requires { Fair roster.now.entries target }
    ensures { result ≡ first_line (whole_of roster.now.entries target) (offset_of target) rest.start rest.length }
{
    let mapping = match target {
        Target::Zero => Mapping::Zero,
        Target::Error => Mapping::Error,
        Target::Linear { device, sector } => {
            Mapping::Linear(spot_of(roster.entries(), device, sector))
        }
        Target::Striped { set, offset } => return set_line(roster, set, offset, rest),
    };
    Line {
        start: rest.start,
        length: rest.length,
        mapping,
    }
}
