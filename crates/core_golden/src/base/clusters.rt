use cluster_desc::{Cluster, read_cluster};
use golden_lines::Piece::{Number, Text};
use golden_lines::{Stop, push_text, say, say_line};
use schedule_unit::{GroupNo, MachineNo, RackNo};
use std::alloc::Global;

fn tell_racks(rt: &HostRuntime, cluster: &Cluster) -> Result<(), Stop> {
    for rack in 0..64 {
        if cluster.has_rack(RackNo(rack)) {
            say(rt, &[Text(" "), Number(rack as u64)])?;
        }
    }
    Ok(())
}

fn tell_machines(rt: &HostRuntime, cluster: &Cluster) -> Result<(), Stop> {
    for number in 0..cluster.machines().min(2) {
        let machine = cluster.machine(MachineNo(number));
        print!(rt; "; in rack {} {:?}", machine.rack.0, machine.has.q)?;
    }
    Ok(())
}

fn tell_groups(rt: &HostRuntime, cluster: &Cluster) -> Result<(), Stop> {
    for number in 0..cluster.groups().min(2) {
        let group = cluster.group(GroupNo(number));
        print!(rt; "; quota {:?} limit {:?}", group.quota.q, group.limit.q)?;
    }
    Ok(())
}

fn tell(rt: &HostRuntime, cluster: &Cluster) -> Result<(), Stop> {
    say(
        rt,
        &[
            Number(cluster.resources() as u64),
            Text(" resources, "),
            Number(cluster.machines() as u64),
            Text(" machines, "),
            Number(cluster.groups() as u64),
            Text(" groups; racks"),
        ],
    )?;
    tell_racks(rt, cluster)?;
    tell_machines(rt, cluster)?;
    tell_groups(rt, cluster)?;
    say_line(rt, &[])?;
    Ok(())
}

// Prints a copy.
fn tell_copy(rt: &HostRuntime, alloc: Global, cluster: &Cluster) -> Result<(), Stop> {
    let copy = cluster.copy(alloc)?;
    tell(rt, &copy)
}

/// Prints the cluster that a line describes, with its first two machines and groups.
pub fn cluster(rt: &HostRuntime, alloc: Global, line: &str) -> Result<(), Stop> {
    let mut bytes = Vec::new(alloc);
    push_text(&mut bytes, line)?;
    match read_cluster(alloc, &bytes) {
        Ok(cluster) => tell_copy(rt, alloc, &cluster),
        Err(fault) => Ok(println!(rt; "{fault:?}: {fault}")?),
    }
}
