// How many bytes the lines of a table have.
ghost use Rattle.std.specs.Prelude.{◌≡◌, ◌≤◌, length, decimal};
ghost use Rattle.std.specs.List.{flat_map};
ghost use Rattle.text.specs.Spelling.{spell, spot_text, mapping_text};

use crate::line::{Line, Mapping};
use crate::spot::Spot;
use crate::words::{ERROR, LINEAR, STRIPED, ZERO};

// How many digits a number has.
#[tactic(auto, using(crate::proofs::Figures::digits_by_power, std::proofs::lemmas::Fmt::decimal_digit))]
pub(crate) fn digits(n: u64) -> usize
    ensures size { result ≡ length (decimal n) }
    ensures few { result ≤ 20 }
{
    n.checked_ilog10().map_or(1, |power| power as usize + 1)
}

// How many bytes a spot has: two spaces, a colon and its numbers.
fn spot_size(spot: Spot) -> usize
    ensures size { result ≡ length (spot_text spot) }
    ensures few { result ≤ 63 }
{
    3 + digits(spot.major) + digits(spot.minor) + digits(spot.sector)
}

// How many bytes some spots have.
fn spots_size(columns: &[Spot]) -> usize
    requires { length columns.now ≤ 8 }
    ensures size { result ≡ length (flat_map spot_text columns.now) }
    ensures few { result ≤ 504 }
{
    let mut total = 0;
    for column in columns {
        total += spot_size(*column);
    }
    total
}

// How many bytes a mapping has, with a space before each field.
fn mapping_size(mapping: &Mapping) -> usize
    ensures size { result ≡ length (mapping_text mapping.now) }
    ensures few { result ≤ 560 }
{
    match mapping {
        Mapping::Zero => 1 + ZERO.len(),
        Mapping::Error => 1 + ERROR.len(),
        Mapping::Linear(spot) => 1 + LINEAR.len() + spot_size(*spot),
        Mapping::Striped { chunk, columns } => {
            let numbers = digits(columns.spots.len() as u64) + digits(*chunk);
            3 + STRIPED.len() + numbers + spots_size(&columns.spots)
        }
    }
}

// How many bytes a line has, with the space before its length and the line feed.
#[tactic(auto, using(crate::proofs::Adding::spell_size))]
pub(crate) fn line_size(line: &Line) -> usize
    ensures size { result ≡ length (spell line.now) }
    ensures few { result ≤ 602 }
{
    2 + digits(line.start) + digits(line.length) + mapping_size(&line.mapping)
}
