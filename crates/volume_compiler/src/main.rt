// Works one task from beginning to end: a shelf, a base and a top volume, the overlay of the two, and their tables.
#![tactic(auto)]

mod desk;
mod failure;
mod shelf;
mod task;

fn main(rt: HostRuntime) -> anyhow::Result<()> {
    Ok(task::work(&rt)?)
}
