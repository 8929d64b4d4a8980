// The shelf of the task: two devices, and a stripe set over both.
use crate::failure::Failure;
use roster::closed::ClosedRoster;
use roster::entry::Column;
use roster::open::OpenRoster;

pub(crate) fn describe(rt: &HostRuntime) -> Result<ClosedRoster, Failure> {
    let mut open = OpenRoster::new();
    let first = open.add_device(8, 0, 4096)?;
    println!(rt; "device 8:0 of 4096 sectors is number {first}")?;
    let second = open.add_device(8, 16, 4096)?;
    println!(rt; "device 8:16 of 4096 sectors is number {second}")?;
    let columns = [
        Column {
            device: first,
            base: 1024,
        },
        Column {
            device: second,
            base: 2048,
        },
    ];
    let set = open.add_set(8, 4, &columns)?;
    println!(rt; "set of chunk 8 and 4 rows on 8:0 1024 and 8:16 2048 is number {set}")?;
    println!(rt; "the roster is closed")?;
    Ok(open.close())
}
