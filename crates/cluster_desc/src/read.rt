//! Reads the line of JSON that describes a cluster.

ghost use Rattle.std.specs.Prelude.{◌≡◌, ◌≤◌, IfOk, IfErr, MatchResult, Some, Ok, Err, length, map, take};
ghost use Rattle.serde_json.specs.View.{view, items_view, members_view};
ghost use Rattle.std.specs.List.{list_any};
ghost use Rattle.std.specs.Str.{bytes_eq};
ghost use Rattle.fuxi_terms.specs.ClusterKeys.{word_of};
ghost use Rattle.fuxi_terms.specs.Padded.{padded};
ghost use Rattle.cluster_desc.specs.ClusterLine.{array_between, cluster_at, cluster_of, each, group_at, has_only, machine_at, number_between, numbers_of, object_of, quantities, value_at, value_of, whole_number};
ghost use Rattle.cluster_desc.specs.Faults.{IsFault, given};
ghost use Rattle.cluster_desc.specs.Records.{group_of, group_record, machine_of, machine_record};

use crate::cluster::{Cluster, Group, Machine};
use crate::fault::ClusterFault;
use fuxi_terms::ClusterKey;
use fuxi_terms::limits::{MOST_GROUPS, MOST_MACHINES, MOST_RACKS, MOST_RESOURCES};
use res_vector::{Res, are_quantities, fits, from_quantities};
use schedule_unit::{GroupNo, RackNo};
use serde_json::{Category, Map, Value};
use std::alloc::Global;

/// The cluster that the line describes, or the first fault of it. `OutOfMemory` may come in place of any answer.
#[tactic(auto, using(crate::proofs::Steps::fault_bind), unfolding(crate::specs::ClusterLine::cluster_of))]
pub fn read_cluster(alloc: Global, line: &[u8]) -> Result<Cluster, ClusterFault>
    ensures ok { IfOk result (λ cluster. cluster_of line.now ≡ Ok cluster) }
    ensures fault { IfErr result (IsFault (cluster_of line.now)) }
{
    let value = read_value(alloc, line)?;
    cluster_at(alloc, &value)
}

fn read_value(alloc: Global, line: &[u8]) -> Result<Value, ClusterFault>
    ensures ok { IfOk result (λ value. value_of line.now ≡ Some (view value)) }
    ensures fault { IfErr result (IsFault (given (value_of line.now) ClusterFault.NotJson)) }
{
    match Value::from_slice(alloc, line) {
        Ok(value) => Ok(value),
        Err(error) => match error.classify() {
            Category::Memory => Err(ClusterFault::OutOfMemory),
            _ => Err(ClusterFault::NotJson),
        },
    }
}

#[tactic(auto, using(crate::proofs::Steps::fault_bind), unfolding(crate::specs::ClusterLine::cluster_at))]
fn cluster_at(alloc: Global, value: &Value) -> Result<Cluster, ClusterFault>
    ensures ok { IfOk result (λ cluster. cluster_at (view value.now) ≡ Ok cluster) }
    ensures fault { IfErr result (IsFault (cluster_at (view value.now))) }
{
    let keys = [
        ClusterKey::Resources,
        ClusterKey::Machines,
        ClusterKey::Groups,
    ];
    object_of(ClusterKey::Cluster, &keys, value)?;
    let resources = value_at(ClusterKey::Resources, value)?;
    let machines = value_at(ClusterKey::Machines, value)?;
    let groups = value_at(ClusterKey::Groups, value)?;
    let resources = number_between(
        ClusterKey::Resources,
        1,
        MOST_RESOURCES as u64,
        resources,
    )? as u8;
    let machines = array_between(ClusterKey::Machines, 1, MOST_MACHINES, machines)?;
    let machines = machines_at(alloc, resources, machines)?;
    let groups = array_between(ClusterKey::Groups, 1, MOST_GROUPS, groups)?;
    let groups = groups_at(alloc, resources, groups)?;
    Ok(Cluster::from_parts(resources, machines, groups))
}

fn machines_at(alloc: Global, resources: u8, values: &[Value]) -> Result<Vec<Machine>, ClusterFault>
    requires { resources ≤ 8 }
    ensures ok { IfOk result (λ machines. each (λ i. machine_at resources) 0 (items_view values.now)
        ≡ Ok (map (machine_record resources) machines.items)) }
    ensures back { IfOk result (λ machines. map machine_of (map (machine_record resources) machines.items)
        ≡ machines.items) }
    ensures fault { IfErr result (IsFault (each (λ i. machine_at resources) 0 (items_view values.now))) }
{
    let mut machines = Vec::new(alloc);
    for value in values {
        let machine = machine_at(alloc, resources, value)?;
        if machines.push(machine).is_err() {
            return Err(ClusterFault::OutOfMemory);
        }
    }
    Ok(machines)
}

#[tactic(auto, using(crate::proofs::Steps::fault_bind), unfolding(crate::specs::ClusterLine::machine_at))]
fn machine_at(alloc: Global, resources: u8, value: &Value) -> Result<Machine, ClusterFault>
    requires { resources ≤ 8 }
    ensures ok { IfOk result (λ m. machine_at resources (view value.now) ≡ Ok (machine_record resources m)) }
    ensures back { IfOk result (λ m. machine_of (machine_record resources m) ≡ m) }
    ensures fault { IfErr result (IsFault (machine_at resources (view value.now))) }
{
    object_of(
        ClusterKey::Machines,
        &[ClusterKey::Rack, ClusterKey::Has],
        value,
    )?;
    let rack = value_at(ClusterKey::Rack, value)?;
    let has = value_at(ClusterKey::Has, value)?;
    let rack = number_between(ClusterKey::Rack, 0, u64::from(MOST_RACKS - 1), rack)?;
    let has = quantities(alloc, ClusterKey::Has, resources, has)?;
    Ok(Machine {
        rack: RackNo(rack as u32),
        has,
    })
}

fn groups_at(alloc: Global, resources: u8, values: &[Value]) -> Result<Vec<Group>, ClusterFault>
    requires resources { resources ≤ 8 }
    requires few { length values.now ≤ 32 }
    ensures ok { IfOk result (λ groups. each (group_at resources) 0 (items_view values.now)
        ≡ Ok (map (group_record resources) groups.items)) }
    ensures back { IfOk result (λ groups. map group_of (map (group_record resources) groups.items)
        ≡ groups.items) }
    ensures fault { IfErr result (IsFault (each (group_at resources) 0 (items_view values.now))) }
{
    let mut groups = Vec::new(alloc);
    for value in values {
        let group = group_at(alloc, resources, GroupNo(groups.len() as u32), value)?;
        if groups.push(group).is_err() {
            return Err(ClusterFault::OutOfMemory);
        }
    }
    Ok(groups)
}

#[tactic(auto, using(crate::proofs::Steps::fault_bind, crate::proofs::Values::fits_taken), unfolding(crate::specs::ClusterLine::group_at))]
fn group_at(
    alloc: Global,
    resources: u8,
    number: GroupNo,
    value: &Value,
) -> Result<Group, ClusterFault>
    requires { resources ≤ 8 }
    ensures ok { IfOk result (λ g. group_at resources number.0 (view value.now) ≡ Ok (group_record resources g)) }
    ensures back { IfOk result (λ g. group_of (group_record resources g) ≡ g) }
    ensures fault { IfErr result (IsFault (group_at resources number.0 (view value.now))) }
{
    object_of(
        ClusterKey::Groups,
        &[ClusterKey::Quota, ClusterKey::Limit],
        value,
    )?;
    let quota = value_at(ClusterKey::Quota, value)?;
    let limit = value_at(ClusterKey::Limit, value)?;
    let quota = quantities(alloc, ClusterKey::Quota, resources, quota)?;
    let limit = quantities(alloc, ClusterKey::Limit, resources, limit)?;
    if !fits(&quota, &limit) {
        return Err(ClusterFault::QuotaOverLimit(number));
    }
    Ok(Group { quota, limit })
}

#[tactic(auto, using(crate::proofs::Steps::fault_bind), unfolding(crate::specs::ClusterLine::quantities))]
fn quantities(
    alloc: Global,
    key: ClusterKey,
    resources: u8,
    value: &Value,
) -> Result<Res, ClusterFault>
    requires { resources ≤ 8 }
    ensures ok { IfOk result (λ size. quantities key resources (view value.now) ≡ Ok (take resources size.q)) }
    ensures back { IfOk result (λ size. padded (take resources size.q) ≡ size.q) }
    ensures fault { IfErr result (IsFault (quantities key resources (view value.now))) }
{
    let numbers = numbers_of(alloc, key, value)?;
    if numbers.len() != resources as usize {
        return Err(ClusterFault::LengthDiffers);
    }
    if !are_quantities(&numbers) {
        return Err(ClusterFault::QuantityRange);
    }
    Ok(from_quantities(&numbers))
}

#[tactic(auto, unfolding(crate::specs::ClusterLine::numbers_of))]
fn numbers_of(alloc: Global, key: ClusterKey, value: &Value) -> Result<Vec<u64>, ClusterFault>
    ensures ok { IfOk result (λ numbers. numbers_of key (view value.now) ≡ Ok numbers.items) }
    ensures fault { IfErr result (IsFault (numbers_of key (view value.now))) }
{
    let Some(values) = value.as_array() else {
        return Err(ClusterFault::WrongKind(key));
    };
    whole_numbers(alloc, key, values)
}

fn whole_numbers(alloc: Global, key: ClusterKey, values: &[Value]) -> Result<Vec<u64>, ClusterFault>
    ensures ok { IfOk result (λ numbers. each (λ i. whole_number key) 0 (items_view values.now) ≡ Ok numbers.items) }
    ensures fault { IfErr result (IsFault (each (λ i. whole_number key) 0 (items_view values.now))) }
{
    let mut numbers = Vec::new(alloc);
    for value in values {
        let number = whole_number(key, value)?;
        if numbers.push(number).is_err() {
            return Err(ClusterFault::OutOfMemory);
        }
    }
    Ok(numbers)
}

#[tactic(auto, unfolding(crate::specs::ClusterLine::number_between))]
fn number_between(
    key: ClusterKey,
    least: u64,
    most: u64,
    value: &Value,
) -> Result<u64, ClusterFault>
    ensures value { result ≡ number_between key least most (view value.now) }
    ensures range { IfOk result (λ number. number ≤ most) }
{
    let number = whole_number(key, value)?;
    if least <= number && number <= most {
        Ok(number)
    } else {
        Err(ClusterFault::Count(key))
    }
}

fn whole_number(key: ClusterKey, value: &Value) -> Result<u64, ClusterFault>
    ensures { result ≡ whole_number key (view value.now) }
{
    match value.as_u64() {
        Some(number) => Ok(number),
        None => Err(ClusterFault::WrongKind(key)),
    }
}

#[tactic(auto, using(crate::proofs::Steps::count_of_view), unfolding(crate::specs::ClusterLine::array_between))]
fn array_between<'v>(
    key: ClusterKey,
    least: usize,
    most: usize,
    value: &'v Value,
) -> Result<&'v [Value], ClusterFault>
    ensures few { IfOk result (λ values. length values.now ≤ most) }
    ensures value { MatchResult result (λ values. array_between key least most (view value.now) ≡ Ok (items_view values.now))
        (λ fault. array_between key least most (view value.now) ≡ Err fault) }
{
    match value.as_array() {
        Some(values) if least <= values.len() && values.len() <= most => Ok(values.as_slice()),
        Some(_) => Err(ClusterFault::Count(key)),
        None => Err(ClusterFault::WrongKind(key)),
    }
}

#[tactic(auto, unfolding(crate::specs::ClusterLine::object_of))]
fn object_of(key: ClusterKey, keys: &[ClusterKey], value: &Value) -> Result<(), ClusterFault>
    ensures { result ≡ object_of key keys.now (view value.now) }
{
    match value.as_object() {
        Some(members) if has_only(keys, members) => Ok(()),
        Some(_) => Err(ClusterFault::UnknownKey),
        None => Err(ClusterFault::WrongKind(key)),
    }
}

fn has_only(keys: &[ClusterKey], members: &Map<String, Value>) -> bool
    ensures { result ≡ has_only keys.now (members_view members.now.entries) }
{
    members.keys().all(|name| is_one_of(keys, name.as_str()))
}

fn is_one_of(keys: &[ClusterKey], name: &str) -> bool
    ensures { result ≡ list_any (λ key. bytes_eq (word_of key) name.now) keys.now }
{
    keys.iter().any(|key| key.word() == name)
}

#[tactic(auto, unfolding(crate::specs::ClusterLine::value_at))]
fn value_at<'v>(key: ClusterKey, value: &'v Value) -> Result<&'v Value, ClusterFault>
    ensures { MatchResult result (λ v. value_at key (view value.now) ≡ Ok (view v.now))
        (λ fault. value_at key (view value.now) ≡ Err fault) }
{
    match value.get(key.word()) {
        Some(found) => Ok(found),
        None => Err(ClusterFault::MissingKey(key)),
    }
}
