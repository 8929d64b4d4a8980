// Printing a volume: a pass that measures its text, and a pass that fills the buffer.
ghost use Rattle.std.specs.Prelude.{◌≡◌, ◌<◌, ◌≤◌, length, MatchOption};
ghost use Rattle.text.specs.Printing.{Fills, Prints, PrintsShowPlaces, PrintsTellPlaces};
ghost use Rattle.text.specs.Spelling.{text_of};
ghost use Rattle.text.specs.Left.{lines_left};
ghost use Rattle.text.specs.Writers.{Adds, HasRoom};

use crate::lines::Lines;
use crate::measure::line_size;
use crate::refusal::TextRefusal;
use crate::writer::Writer;
use roster::closed::ClosedRoster;
use roster::refusal::RosterRefusal;
use roster::target::Target;
use table::refusal::Refusal;
use table::table::View;

// How many bytes the lines have, if they fit the room.
fn measure(lines: Lines<'_>, room: usize) -> Option<usize>
    ensures { MatchOption result (room < length (text_of (lines_left lines.entry))) (λ n. (n ≡ length (text_of (lines_left lines.entry))) × (n ≤ room)) }
{
    let mut total = 0;
    for line in lines {
        let bytes = line_size(&line);
        if bytes > room - total {
            return None;
        }
        total += bytes;
    }
    Some(total)
}

// Writes the lines, for which there is room.
#[tactic(auto, using(crate::proofs::Passes::line_room, crate::proofs::Passes::written_more))]
fn fill(lines: Lines<'_>, writer: &mut Writer<'_>)
    requires { HasRoom (text_of (lines_left lines)) writer.old }
    ensures { Adds (text_of (lines_left lines.entry)) writer.old writer.new }
{
    for line in lines {
        writer.line(&line);
    }
}

// Writes the lines to the front of the buffer, if they fit.
fn print_lines(lines: Lines<'_>, buffer: &mut [u8]) -> Result<usize, TextRefusal>
    ensures { Fills (text_of (lines_left lines.entry)) buffer.old buffer.new result }
{
    let count = measure(lines.again(), buffer.len()).ok_or(TextRefusal::TooLong)?;
    let mut writer = Writer { buffer, at: 0 };
    fill(lines, &mut writer);
    Ok(count)
}

// Writes the text of a volume to the front of the buffer, and answers how many bytes it has.
#[tactic(auto, using(crate::proofs::Showing::volume_shows, crate::proofs::Telling::prints_tell_places))]
pub fn print(
    roster: &ClosedRoster,
    volume: &View<'_, Target>,
    buffer: &mut [u8],
) -> Result<usize, TextRefusal>
    ensures prints { Prints roster.now.entries volume.now.head volume.now.slots.now buffer.old buffer.new result }
    ensures shows { PrintsShowPlaces roster.now.entries }
    ensures tells { PrintsTellPlaces roster.now.entries }
{
    let lines = Lines::new(roster, volume).ok_or(RosterRefusal::Table(Refusal::BrokenTable))?;
    print_lines(lines, buffer)
}
