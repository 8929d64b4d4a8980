// A closed roster: it answers questions and never changes.
ghost use Rattle.std.specs.Prelude.{◌≡◌};

use crate::entry::Entries;
use crate::roster::Roster;

#[derive(Clone, Copy, Debug, PartialEq, Eq)]
pub struct Closed;

pub type ClosedRoster = Roster<Closed>;

impl ClosedRoster {
    // What the roster lists.
    pub fn entries(&self) -> &Entries
        ensures { result.now ≡ self.now.entries }
    {
        &self.entries
    }
}
