// Device-mapper tables as text: what a line means, how it is spelled, and printing the lines of a volume.
#![tactic(auto)]

pub mod history;
mod line;
mod lines;
mod measure;
pub mod print;
pub mod refusal;
mod spot;
mod step;
mod words;
mod writer;
