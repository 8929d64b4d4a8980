// Stripe sets that keep their rules, where their offsets lie, and which sectors their areas own.
ghost use Rattle.std.specs.Prelude.{◌≡◌, ℕ, ◌+◌, ◌^◌, ◌<◌, ◌≤◌, if◌then◌else◌, length, Some, None, ◌↔◌, IsTrue, MatchOption, nat_lt};
ghost use Rattle.roster.specs.Rosters.{column_at, span, size_of, area_on, SetClear, Shaped, SoundDevices};
ghost use Rattle.roster.specs.Additions.{Apart, FitsDevices, OwnApart};
ghost use Rattle.roster.specs.Places.{column_of, row_of, Bounded, Roomy, SizedBy, stripe_place};

use crate::area::Area;
use crate::entry::{Column, Entries, SetEntry};
use crate::place::Place;
use table::normal::LIMIT;

impl SetEntry {
    // Whether columns, chunk and rows are in range.
    fn is_shaped(&self) -> bool
        ensures { IsTrue result ↔ Shaped self.now }
    {
        (2..=8).contains(&self.width) && (8..=65536).contains(&self.chunk) && self.rows >= 1
    }

    // Whether an area that begins at a sector ends within a size.
    fn fits(&self, base: u64, size: u64) -> bool
        ensures { IsTrue result ↔ (base + span self.now ≤ size) }
    {
        let Some(span) = self.chunk.checked_mul(self.rows) else {
            return false;
        };
        base.checked_add(span).is_some_and(|end| end <= size)
    }

    // Whether every area lies inside a device of the size given for it.
    fn is_roomy(&self, sizes: &[u64; 8]) -> bool
        requires { Shaped self.now }
        ensures { IsTrue result ↔ Roomy self.now sizes.now }
    {
        for (j, column) in self.counted().iter().enumerate() {
            let size = sizes[j];
            if size > LIMIT || !self.fits(column.base, size) {
                return false;
            }
        }
        true
    }
}

// A stripe set: its numbers, and the size of the device in which each column's area lies.
// The sizes stand beside the numbers, and not in their columns, since the numbers are an entry that was copied whole.
#[derive(Drop)]
pub struct StripeSet {
    numbers: SetEntry,
    sizes: [u64; 8],
    ghost shaped: { Shaped numbers },
    ghost roomy: { Roomy numbers sizes },
}

impl StripeSet {
    // The stripe set with these numbers, if they keep the rules.
    fn new(numbers: SetEntry, sizes: [u64; 8]) -> Option<StripeSet>
        ensures { MatchOption result (Shaped numbers × Roomy numbers sizes → ⊥) (λ s. (s.numbers ≡ numbers) × (s.sizes ≡ sizes)) }
    {
        if !numbers.is_shaped() || !numbers.is_roomy(&sizes) {
            return None;
        }
        Some(StripeSet { numbers, sizes })
    }

    // The set without the sizes, which are needed only to judge it.
    pub(crate) fn stripe(&self) -> Stripe<'_>
        ensures { result.numbers.now ≡ self.now.numbers }
    {
        Stripe {
            numbers: &self.numbers,
        }
    }

    // How many sectors the set has.
    pub(crate) fn size(&self) -> u64
        ensures { result ≡ size_of self.now.numbers }
    {
        self.stripe().size()
    }

    // Where an offset lies, if the set has it.
    pub fn place(&self, offset: u64) -> Option<Place>
        ensures { result ≡ (if nat_lt offset (size_of self.now.numbers) then Some (stripe_place self.now.numbers offset) else None) }
    {
        self.stripe().place(offset)
    }
}

impl Entries {
    // The size of each column's device.
    fn column_sizes(&self, numbers: &SetEntry) -> [u64; 8]
        requires few { numbers.now.width ≤ 8 }
        requires listed { (j : ℕ) → j < numbers.now.width → (column_at numbers.now j).device < length self.now.devices.items }
        ensures { SizedBy self.now numbers.now result }
    {
        let mut sizes = [0; 8];
        for (j, column) in numbers.counted().iter().enumerate() {
            sizes[j] = self.devices[usize::from(column.device)].size;
        }
        sizes
    }

    // The stripe set with these numbers, if they keep the rules on the listed devices that the columns name.
    pub(crate) fn judged(&self, numbers: SetEntry) -> Option<StripeSet>
        requires sound { SoundDevices self.now }
        requires few { numbers.width ≤ 8 }
        requires listed { (j : ℕ) → j < numbers.width → (column_at numbers j).device < length self.now.devices.items }
        ensures { MatchOption result (Shaped numbers × FitsDevices self.now numbers → ⊥) (λ s. (s.numbers ≡ numbers) × SizedBy self.now numbers s.sizes) }
    {
        let sizes = self.column_sizes(&numbers);
        StripeSet::new(numbers, sizes)
    }
}

// A set whose numbers are in range, and whose areas are within the limit.
#[derive(Drop)]
pub(crate) struct Stripe<'a> {
    pub(crate) numbers: &'a SetEntry,
    ghost shaped: { Shaped numbers.now },
    ghost bounded: { Bounded numbers.now },
}

impl Stripe<'_> {
    // How many sectors the set has.
    fn size(&self) -> u64
        ensures { result ≡ size_of self.now.numbers.now }
    {
        self.numbers.width as u64 * (self.numbers.chunk * self.numbers.rows)
    }

    // The column and the row that hold an offset.
    fn cell(&self, offset: u64) -> (u64, u64)
        ensures column { result.0 ≡ column_of self.now.numbers.now offset }
        ensures row { result.1 ≡ row_of self.now.numbers.now offset }
    {
        let chunk = offset / self.numbers.chunk;
        let width = self.numbers.width as u64;
        (chunk % width, chunk / width)
    }

    // Where an offset lies, if the set has it.
    pub(crate) fn place(&self, offset: u64) -> Option<Place>
        ensures { result ≡ (if nat_lt offset (size_of self.now.numbers.now) then Some (stripe_place self.now.numbers.now offset) else None) }
    {
        if offset >= self.size() {
            return None;
        }
        let chunk = self.numbers.chunk;
        let (index, row) = self.cell(offset);
        let column = self.numbers.columns[index as usize];
        Some(Place::At {
            device: column.device,
            sector: column.base + (row * chunk + offset % chunk),
        })
    }

    // The area that a column owns.
    fn area(&self, column: Column) -> Area
        requires { column.base + span self.now.numbers.now ≤ 2 ^ 40 }
        ensures { result ≡ area_on self.now.numbers.now column }
    {
        Area {
            device: column.device,
            from: column.base,
            to: column.base + self.numbers.chunk * self.numbers.rows,
        }
    }

    // Whether no area shares a sector with a run.
    pub(crate) fn is_clear(&self, run: Area) -> bool
        ensures { IsTrue result ↔ SetClear self.now.numbers.now run }
    {
        for column in self.numbers.counted() {
            if self.area(*column).meets(run) {
                return false;
            }
        }
        true
    }

    // Whether no area shares a sector with an area of the other set.
    pub(crate) fn is_apart(&self, other: &Stripe<'_>) -> bool
        ensures { IsTrue result ↔ Apart self.now.numbers.now other.now.numbers.now }
    {
        for column in self.numbers.counted() {
            if !other.is_clear(self.area(*column)) {
                return false;
            }
        }
        true
    }

    // Whether no two areas share a sector.
    pub(crate) fn is_apart_within(&self) -> bool
        ensures { IsTrue result ↔ OwnApart self.now.numbers.now }
    {
        let columns = self.numbers.counted();
        for (k, column) in columns.iter().enumerate() {
            let area = self.area(*column);
            for earlier in &columns[..k] {
                if self.area(*earlier).meets(area) {
                    return false;
                }
            }
        }
        true
    }
}
