use cluster_desc::read_cluster;
use fuxi_io::MemDisk;
use fuxi_master::Master;
use fuxi_terms::OutOfMemory;
use hard_state::Hard;
use master_desk::{Gate, Sessions, run_all};
use std::sync::atomic::{AtomicBool, Ordering};

// How often a session looks whether the other one is there.
const TURNS: u32 = 100_000_000;

// Two sessions wait for each other ahead of their first calls.
#[derive(Drop)]
struct Meeting {
    here: [AtomicBool; 2],
    missed: AtomicBool,
}

impl Gate for Meeting {
    fn before(&self, session: u32, call: u32) {
        if session > 1 || call != 1 {
            return;
        }
        let (mine, other) = (session as usize, 1 - session as usize);
        self.here[mine].store(true, Ordering::SeqCst);
        for turn in 0..TURNS {
            if self.here[other].load(Ordering::SeqCst) {
                return;
            }
        }
        self.missed.store(true, Ordering::SeqCst);
    }

    fn after(&self, session: u32, call: u32) {
        let _both = (session, call);
    }
}

// The workers of two sessions come to their first calls at once.
#[test]
fn two_sessions_meet(rt: HostRuntime) -> Result<(), OutOfMemory> {
    let line =
        br#"{"resources":1,"machines":[{"rack":0,"has":[1]}],"groups":[{"quota":[1],"limit":[1]}]}"#;
    let Ok(cluster) = read_cluster(rt.alloc(), line) else {
        return Err(OutOfMemory);
    };
    let mut disk = MemDisk::of(rt.alloc(), Vec::new(rt.alloc()), Vec::new(rt.alloc()));
    disk.room(64)?;
    let Ok(hard) = Hard::open(rt.alloc(), &mut disk) else {
        return Err(OutOfMemory);
    };
    let master = Master::start(rt.alloc(), &cluster, 1, &hard)?;
    let mut sessions = Sessions::start(rt.alloc())?;
    sessions.add(0, b"0")?;
    sessions.add(1, b"1")?;
    let meeting = Meeting {
        here: [AtomicBool::new(false), AtomicBool::new(false)],
        missed: AtomicBool::new(false),
    };
    let book = run_all(&rt, rt.alloc(), master, &sessions, &meeting)?;
    assert!(rt; meeting.here[0].load(Ordering::SeqCst));
    assert!(rt; meeting.here[1].load(Ordering::SeqCst));
    assert!(rt; !meeting.missed.load(Ordering::SeqCst));
    assert_eq!(rt; book.len(), 2);
    Ok(())
}
