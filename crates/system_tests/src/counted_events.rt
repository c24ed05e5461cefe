use schedule_unit::AppNo;
use work_plan::{WorkEvent, WorkStop, WorkWorld};

// That a world of named workers, which no program calls, counts its events, a refused one too.
#[test]
fn refused_events_are_counted(rt: HostRuntime) -> Result<(), WorkStop> {
    let mut out = Vec::new(rt.alloc());
    let Ok(world) = WorkWorld::start(rt.alloc()) else {
        return Err(WorkStop::OutOfMemory);
    };
    assert_eq!(rt; world.steps(), 0);
    let start = WorkEvent::App(AppNo(1), 1);
    let world = world.step(rt.alloc(), &start, &mut out)?;
    assert!(rt; out.is_empty());
    let world = world.step(rt.alloc(), &start, &mut out)?;
    assert!(rt; out.starts_with(b"refused"));
    assert_eq!(rt; world.steps(), 2);
    Ok(())
}
