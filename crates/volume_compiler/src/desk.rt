// Where the task is worked: a closed roster, and the output that tells of each step.
use crate::failure::Failure;
use roster::closed::ClosedRoster;
use roster::entry::Device;
use roster::place::Place;
use roster::refusal::RosterRefusal;
use roster::target::Target;
use std::io;
use std::io::Write;
use table::history::Edit;
use table::table::{Table, View};
use text::print::print;
use text::refusal::TextRefusal;

#[derive(Drop)]
pub struct Desk<'a> {
    pub rt: &'a HostRuntime,
    pub roster: ClosedRoster,
}

impl Desk<'_> {
    // Makes a call on a volume, and says whether it was accepted.
    pub(crate) fn edit(
        &self,
        volume: &mut Table<'_, Target>,
        what: &str,
        edit: &Edit<'_, Target>,
    ) -> io::Result<()> {
        let answer = self.roster.apply(volume, edit);
        self.outcome(what, answer)
    }

    // A step and whether it was accepted: WHAT: accepted, or WHAT: refused NUMBER LAYER.
    pub(crate) fn outcome(&self, what: &str, answer: Result<(), RosterRefusal>) -> io::Result<()> {
        let rt = self.rt;
        let Err(below) = answer else {
            return println!(rt; "{what}: accepted");
        };
        let refusal = TextRefusal::from(below);
        let number = refusal.number();
        let layer = refusal.layer();
        println!(rt; "{what}: refused {number} {layer}")
    }

    // Says what a volume holds: its name, and its device-mapper table.
    pub(crate) fn show(&self, volume: &View<'_, Target>, name: &str) -> Result<(), Failure> {
        let rt = self.rt;
        let mut buffer = [0u8; 1024];
        let count = print(&self.roster, volume, &mut buffer)?;
        println!(rt; "{name} prints {count} bytes")?;
        rt.stdout().write_all(&buffer[0..count])?;
        Ok(())
    }

    // Where a sector of a volume lies: NAME SECTOR: MAJOR:MINOR SECTOR, zero or error.
    pub(crate) fn locate(
        &self,
        volume: &View<'_, Target>,
        name: &str,
        sector: u64,
    ) -> Result<(), Failure> {
        let rt = self.rt;
        match self.roster.locate(volume, sector)? {
            Place::Zero => println!(rt; "{name} {sector}: zero")?,
            Place::Error => println!(rt; "{name} {sector}: error")?,
            Place::At { device, sector: at } => {
                let Some(Device { major, minor, .. }) = self.roster.entries().device(device) else {
                    return Ok(println!(rt; "{name} {sector}: no device {device}")?);
                };
                println!(rt; "{name} {sector}: {major}:{minor} {at}")?
            }
        }
        Ok(())
    }
}
