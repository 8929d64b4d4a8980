// Each test works one group of examples; a refusal is compared by its number.
use roster::closed::ClosedRoster;
use roster::entry::Column;
use roster::open::OpenRoster;
use roster::place::Place;
use roster::refusal::RosterRefusal;
use roster::target::Target;
use std::test::Fail;
use table::extent::{Head, Run, Slot};
use table::table::Table;

// Devices 8:0 and 8:16 of 4096 sectors, and a set of chunk 8 and 4 rows on 8:0 from 1024 and 8:16 from 2048.
fn shelf() -> Result<ClosedRoster, RosterRefusal> {
    let mut open = OpenRoster::new();
    let first = open.add_device(8, 0, 4096)?;
    let second = open.add_device(8, 16, 4096)?;
    let columns = [
        Column {
            device: first,
            base: 1024,
        },
        Column {
            device: second,
            base: 2048,
        },
    ];
    open.add_set(8, 4, &columns)?;
    Ok(open.close())
}

fn linear(sector: u64) -> Target {
    Target::Linear { device: 0, sector }
}

fn head(count: usize, length: u64) -> Head {
    Head { count, length }
}

fn numbered<T>(answer: Result<T, RosterRefusal>) -> Result<T, u8> {
    answer.map_err(|refusal| refusal.number())
}

fn striped(roster: &ClosedRoster, offset: u64) -> Result<Place, u8> {
    numbered(roster.resolve(Target::Striped { set: 0, offset }))
}

fn append_fresh(roster: &ClosedRoster, length: u64, target: Target) -> Result<(), u8> {
    let mut slots = [Slot::default(); 4];
    let mut volume = Table::new(&mut slots);
    numbered(roster.append(&mut volume, length, target))
}

#[test]
fn offsets_of_a_set(rt: HostRuntime) -> Result<(), Fail> {
    let roster = shelf()?;
    let second = |sector| Place::At { device: 1, sector };
    assert_eq!(rt; striped(&roster, 12), Ok(second(2052)));
    assert_eq!(rt; striped(&roster, 63), Ok(second(2079)));
    assert_eq!(rt; striped(&roster, 64), Err(7));
    Ok(())
}

#[test]
fn runs_beside_an_area_and_a_device(rt: HostRuntime) -> Result<(), Fail> {
    let roster = shelf()?;
    assert_eq!(rt; append_fresh(&roster, 1, linear(1023)), Ok(()));
    assert_eq!(rt; append_fresh(&roster, 2, linear(1023)), Err(8));
    assert_eq!(rt; append_fresh(&roster, 2, linear(4095)), Err(7));
    Ok(())
}

#[test]
fn appends_that_go_on_are_one_extent(rt: HostRuntime) -> Result<(), Fail> {
    let roster = shelf()?;
    let mut slots = [Slot::default(); 4];
    let mut volume = Table::new(&mut slots);
    assert_eq!(rt; numbered(roster.append(&mut volume, 10, linear(0))), Ok(()));
    assert_eq!(rt; numbered(roster.append(&mut volume, 5, linear(10))), Ok(()));
    assert_eq!(rt; volume.head, head(1, 15));
    Ok(())
}

#[test]
fn what_is_put_back_is_one_extent(rt: HostRuntime) -> Result<(), Fail> {
    let roster = shelf()?;
    let mut slots = [Slot::default(); 4];
    let mut volume = Table::new(&mut slots);
    let hole = Run {
        start: 10,
        length: 5,
    };
    assert_eq!(rt; numbered(roster.append(&mut volume, 30, linear(0))), Ok(()));
    assert_eq!(rt;
        numbered(roster.assign(&mut volume, hole, Target::Error)),
        Ok(())
    );
    assert_eq!(rt; volume.head.count, 3);
    assert_eq!(rt;
        numbered(roster.assign(&mut volume, hole, linear(10))),
        Ok(())
    );
    assert_eq!(rt; volume.head, head(1, 30));
    Ok(())
}

#[test]
fn no_room_is_decided_by_the_result(rt: HostRuntime) -> Result<(), Fail> {
    let roster = shelf()?;
    let mut slots = [Slot::default(); 2];
    let mut volume = Table::new(&mut slots);
    let inner = Run {
        start: 10,
        length: 5,
    };
    let last = Run {
        start: 25,
        length: 5,
    };
    assert_eq!(rt;
        numbered(roster.append(&mut volume, 30, Target::Zero)),
        Ok(())
    );
    assert_eq!(rt;
        numbered(roster.assign(&mut volume, inner, Target::Error)),
        Err(11)
    );
    assert_eq!(rt; volume.head.count, 1);
    assert_eq!(rt;
        numbered(roster.assign(&mut volume, last, Target::Error)),
        Ok(())
    );
    let count = volume.head.count;
    assert_eq!(rt; (count, slots[1].start), (2, 25));
    Ok(())
}

#[test]
fn error_lets_the_base_show(rt: HostRuntime) -> Result<(), Fail> {
    let roster = shelf()?;
    let mut base_slots = [Slot::default(); 4];
    let mut top_slots = [Slot::default(); 4];
    let mut slots = [Slot::default(); 4];
    let mut base = Table::new(&mut base_slots);
    let mut top = Table::new(&mut top_slots);
    let mut volume = Table::new(&mut slots);
    assert_eq!(rt; numbered(roster.append(&mut base, 10, linear(0))), Ok(()));
    assert_eq!(rt; numbered(roster.append(&mut top, 5, Target::Error)), Ok(()));
    assert_eq!(rt; numbered(roster.append(&mut top, 5, Target::Zero)), Ok(()));
    assert_eq!(rt;
        numbered(roster.overlay(&mut volume, &top.view(), &base.view())),
        Ok(())
    );
    let count = volume.head.count;
    assert_eq!(rt; (count, slots[0].start, slots[1].start), (2, 0, 5));
    assert_eq!(rt; slots[0].value, linear(0));
    assert_eq!(rt; slots[1].value, Target::Zero);
    Ok(())
}
