// A roster: what it lists, with the rules that it keeps, open or closed.
ghost use Rattle.roster.specs.Rosters.{Sound};

use crate::entry::Entries;

// The state says which calls there are: an open roster is added to, a closed one answers questions and never changes.
#[derive(Drop)]
pub struct Roster<State> {
    pub(crate) state: State,
    pub(crate) entries: Entries,
    ghost sound: { Sound entries },
}
