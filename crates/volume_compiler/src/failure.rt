// Why the program ends early.
use roster::refusal::RosterRefusal;
use std::io;
use text::refusal::TextRefusal;
use thiserror::Error;

#[derive(Debug, Drop, Error)]
pub enum Failure {
    #[error("a step that the task needs was refused")]
    Refused(#[from] TextRefusal),
    #[error("the output could not be written")]
    Output(#[from] io::Error),
}

impl From<RosterRefusal> for Failure {
    fn from(refusal: RosterRefusal) -> Failure {
        Failure::Refused(refusal.into())
    }
}
