use app_master::{AppFault, AppMaster};
use cluster_desc::read_cluster;
use delta_channel::Place;
use fuxi_terms::OutOfMemory;
use ledger_law::{Change, Key, Ledger};
use party_ledgers::{Body, Grants, Kind, Packet};
use schedule_unit::{AppNo, MachineNo, Party, Role, UnitNo};
use std::alloc::Global;

// How many grants of the first unit are held on the first machine, where there are both.
fn held(app: &AppMaster) -> Option<u32> {
    if app.units() == 0 || app.machines() == 0 {
        return None;
    }
    Some(app.held(UnitNo(0), MachineNo(0)))
}

// The grants of an application of boot 1: machine 0 is reported, and has four grants of the first unit.
fn four_grants(alloc: Global) -> Result<Grants, OutOfMemory> {
    let mut change = Change::new(alloc, 1);
    change.put(
        Key {
            what: 1,
            unit: 0,
            number: 0,
        },
        1,
    )?;
    change.put(
        Key {
            what: 2,
            unit: 0,
            number: 0,
        },
        4,
    )?;
    let mut grants = Grants::empty(alloc);
    if grants.apply(alloc, &change).is_err() {
        return Err(OutOfMemory);
    }
    Ok(grants)
}

// What a master of this epoch sends to the application of job 0 in boot 1.
fn sent(epoch: u64, kind: Kind, place: Place, body: Body) -> Packet {
    Packet {
        from: Party {
            role: Role::Master,
            number: 0,
            inc: epoch,
        },
        to: Party {
            role: Role::App,
            number: 0,
            inc: 1,
        },
        kind,
        place,
        body,
    }
}

// The application behind a packet, where that is formed and no End.
fn heard(alloc: Global, app: AppMaster, packet: &Packet) -> Result<AppMaster, OutOfMemory> {
    if !packet.formed() || matches!(packet.kind, Kind::End) || app.steps() > 100 {
        return Err(OutOfMemory);
    }
    let (app, _) = app.on_packet(alloc, packet)?;
    Ok(app)
}

// So many grants of the first unit on the first machine are given back.
fn give_back(alloc: Global, app: &mut AppMaster, count: u64) -> Option<AppFault> {
    if app.steps() > 100 {
        return None;
    }
    app.give_back(alloc, UnitNo(0), MachineNo(0), count).err()
}

// What is given back is no more held, and what is carried into a new epoch is held and may not be given back.
#[test]
fn carried_grants_are_not_given_back(rt: HostRuntime) -> Result<(), OutOfMemory> {
    let line =
        br#"{"resources":1,"machines":[{"rack":0,"has":[4]}],"groups":[{"quota":[4],"limit":[4]}]}"#;
    let Ok(cluster) = read_cluster(rt.alloc(), line) else {
        return Err(OutOfMemory);
    };
    let app = AppMaster::start(rt.alloc(), AppNo(0), 1, &cluster, 1)?;
    let grants = Body::Grants(four_grants(rt.alloc())?);
    let first = sent(1, Kind::Full, Place { inc: 1, seq: 1 }, grants);
    let mut app = heard(rt.alloc(), app, &first)?;
    assert_eq!(rt; held(&app), Some(4));
    assert!(rt; give_back(rt.alloc(), &mut app, 3).is_none());
    assert_eq!(rt; held(&app), Some(1));
    let fault = give_back(rt.alloc(), &mut app, 2);
    assert!(rt; matches!(fault, Some(AppFault::NotUsable { usable: 1 })));
    let second = sent(2, Kind::Ack, Place { inc: 1, seq: 1 }, Body::Nothing);
    let mut app = heard(rt.alloc(), app, &second)?;
    assert_eq!(rt; held(&app), Some(1));
    assert!(rt; app.carried(MachineNo(0)));
    let fault = give_back(rt.alloc(), &mut app, 1);
    assert!(rt; matches!(fault, Some(AppFault::NotUsable { usable: 0 })));
    Ok(())
}
