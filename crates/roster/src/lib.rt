// Rosters of devices and stripe sets, where a target lies under one, and the volumes made of targets.
#![tactic(auto)]

mod addition;
pub mod area;
pub mod closed;
mod edit;
pub mod entry;
mod lawful;
pub mod listing;
pub mod open;
pub mod place;
pub mod refusal;
mod resolving;
pub mod roster;
pub mod stripe;
pub mod target;
mod volume;
