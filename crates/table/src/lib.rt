// Extent tables over any kind of value: which value each sector of a row of slots has, and the calls that change it.
#![tactic(auto)]

mod assign;
mod edit;
pub mod extent;
mod extents;
pub mod history;
pub mod kind;
pub mod mask;
pub mod normal;
mod overlay;
pub mod refusal;
mod row;
pub mod table;
