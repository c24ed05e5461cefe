//! The search: pairs of a waiting unit and a machine that accepts one more grant of it, by greater priority, place
//! in the line and smaller machine.

ghost use Rattle.std.specs.Prelude.{◌≡◌, ℕ, ◌+◌, ◌<◌, ◌≤◌, true, false, IfOk, IfSome, OnOk, length, map};
ghost use Rattle.std.proofs.Common.{get_or};
ghost use Rattle.std.specs.List.{AllByRecursion, flat_map};
ghost use Rattle.std.specs.Option.{option_map};
ghost use Rattle.fuxi_terms.specs.Jobs.{unit_count};
ghost use Rattle.fuxi_terms.specs.Lists.{below_each};
ghost use Rattle.spec_roles.specs.Placing.{Board};
ghost use Rattle.spec_roles.specs.Preemption.{plan_in, falling_priorities};
ghost use Rattle.grant_table.specs.GrantTables.{as_known};
ghost use Rattle.preempt.specs.Given.{IsEntry, pair_of};
ghost use Rattle.preempt.specs.GroupSums.{no_sums};
ghost use Rattle.preempt.specs.Learning.{IsTrue};
ghost use Rattle.preempt.specs.MachineRooms.{AreRooms, AreRoomsFor, IsKindOf, within_at};
ghost use Rattle.preempt.specs.Plans.{IsBoardOf, CanBeMade, plan_as};
ghost use Rattle.preempt.specs.Search.{GoesOn, IsFound, accepts_at, pairs_on, pairs_at};
ghost use Rattle.preempt.specs.Shelves.{IsSnapshot, IsWanted};

use crate::entry::{Entry, Need, Sums};
use crate::learned::Learned;
use crate::machine_grants::{groups_of, machine_grants_of};
use crate::need::{is_guaranteed, need_of, victims_for, waiting_of};
use crate::parts::Parts;
use crate::plan::{Plan, Victims};
use crate::quick_reject::may_any_take;
use crate::room::{Rooms, is_within, place_for, rooms_of};
use crate::snapshot::{Snapshot, entries_on, free_of, has_any_on, open_rows};
use crate::victims::Scratch;
use crate::walk::{by_priority, counts_of, holders_of, priorities_of};
use cluster_desc::Group;
use fuxi_terms::OutOfMemory;
use grant_table::{Asking, GrantTable, Pick, Steps};
use res_vector::zero;
use schedule_unit::MachineNo;
use std::alloc::Global;
use std::sync::ledger::Ledger;

// Whether a unit is tried on a machine: it may be granted there, and it holds fewer there than its greatest number.
fn accepts<P: Asking>(table: &GrantTable, placer: &P, e: &Entry<'_>, machine: MachineNo) -> bool
    requires entry { IsEntry table.now e.now }
    requires machine { machine.0 < length table.now.cluster.machines }
    ensures { result ≡ accepts_at table.now (P.usable placer.now) e.now.app.0 e.now.unit.0 machine.0 }
{
    if !placer.may_use(e.app, e.unit, machine) {
        return false;
    }
    table.held_on(e.app, e.unit, machine) < table.most(e.app, e.unit)
}

// The plan of a unit on a machine, where it has victims there.
fn plan_on<'a, P: Asking>(
    alloc: Global,
    table: &GrantTable,
    placer: &P,
    stock: &Snapshot<'a>,
    e: &Entry<'_>,
    need: &Need,
    machine: MachineNo,
    scratch: &mut Scratch<'a>,
) -> Result<Option<Plan>, OutOfMemory>
    requires entry { IsEntry table.now e.now }
    requires machine { machine.0 < length table.now.cluster.machines }
    requires stock { IsSnapshot table.now stock.now }
    requires wanted { IsWanted table.now e.now.app.0 e.now.unit.0 need.now }
    ensures { IfOk result (GoesOn table.now (P.usable placer.now) (pair_of e.now) machine.0) }
{
    table.is_sound();
    if !accepts(table, placer, e, machine) {
        return Ok(None);
    }
    let entries = entries_on(alloc, table, stock, machine)?;
    let shelf = machine_grants_of(table, stock, &entries, machine);
    match victims_for(alloc, need, e, &shelf, stock.groups, scratch)? {
        Some(victims) => {
            let pick = Pick {
                app: e.app,
                unit: e.unit,
                machine,
            };
            let victims = Victims::of(victims);
            Ok(Some(Plan { pick, victims }))
        }
        None => Ok(None),
    }
}

// The plan of the first machine on which a unit has victims. One where nothing may be taken is passed.
fn first_machine<'a, P: Asking>(
    alloc: Global,
    table: &GrantTable,
    placer: &P,
    stock: &Snapshot<'a>,
    e: &Entry<'_>,
    need: &Need,
    scratch: &mut Scratch<'a>,
) -> Result<Option<Plan>, OutOfMemory>
    requires entry { IsEntry table.now e.now }
    requires stock { IsSnapshot table.now stock.now }
    requires wanted { IsWanted table.now e.now.app.0 e.now.unit.0 need.now }
    ensures { IfOk result (IsFound table.now (P.usable placer.now) (pairs_on table.now (P.usable placer.now) (pair_of e.now))) }
{
    let cluster = table.cluster();
    let rows = open_rows(alloc, table, stock, need)?;
    for number in 0..cluster.machines() {
        if !has_any_on(&rows, number) {
            continue;
        }
        let machine = MachineNo(number);
        match plan_on(alloc, table, placer, stock, e, need, machine, scratch)? {
            Some(plan) => return Ok(Some(plan)),
            None => {}
        }
    }
    Ok(None)
}

// Whether a size needs more than there is room for on a machine.
fn is_beyond(rooms: &[Sums], need: &Need, size: &[u64; 8], machine: u32) -> bool
    requires resources { need.now.resources ≤ 8 }
    requires inside { machine < length rooms.now }
    ensures { result ≡ true → below_each need.now.resources (within_at size.now (get_or rooms.now machine no_sums).q) ≡ false }
{
    !is_within(need.resources, size, &rooms[machine as usize].q)
}

// The plan of the first machine on which a unit has victims, where the rooms are known. One without room for it is
// passed.
fn first_within<'a, P: Asking>(
    alloc: Global,
    table: &GrantTable,
    placer: &P,
    stock: &Snapshot<'a>,
    rooms: &[Sums],
    e: &Entry<'_>,
    need: &Need,
    scratch: &mut Scratch<'a>,
) -> Result<Option<Plan>, OutOfMemory>
    requires entry { IsEntry table.now e.now }
    requires stock { IsSnapshot table.now stock.now }
    requires wanted { IsWanted table.now e.now.app.0 e.now.unit.0 need.now }
    requires rooms { AreRoomsFor table.now need.now rooms.now }
    ensures { IfOk result (IsFound table.now (P.usable placer.now) (pairs_on table.now (P.usable placer.now) (pair_of e.now))) }
{
    let cluster = table.cluster();
    for number in 0..cluster.machines() {
        if is_beyond(rooms, need, &e.size.q, number) {
            continue;
        }
        let machine = MachineNo(number);
        match plan_on(alloc, table, placer, stock, e, need, machine, scratch)? {
            Some(plan) => return Ok(Some(plan)),
            None => {}
        }
    }
    Ok(None)
}

// The plan of a unit for whose kind the rooms are known. No machine is looked at where none has room for it.
fn plan_within<'a, P: Asking>(
    alloc: Global,
    table: &GrantTable,
    placer: &P,
    stock: &Snapshot<'a>,
    rooms: &Rooms,
    e: &Entry<'_>,
    scratch: &mut Scratch<'a>,
) -> Result<Option<Plan>, OutOfMemory>
    requires entry { IsEntry table.now e.now }
    requires stock { IsSnapshot table.now stock.now }
    requires rooms { AreRooms table.now rooms.now }
    requires kind { IsKindOf table.now e.now rooms.now }
    ensures { IfOk result (IsFound table.now (P.usable placer.now) (pairs_on table.now (P.usable placer.now) (pair_of e.now))) }
{
    let resources = table.cluster().resources() as usize;
    if !is_within(resources, &e.size.q, &rooms.widest) {
        return Ok(None);
    }
    match need_of(table, &stock.groups[e.group], e) {
        Some(need) => first_within(alloc, table, placer, stock, &rooms.each, e, &need, scratch),
        None => Ok(None),
    }
}

// The plan of the second unit of a kind. The rooms are made for it, and kept for those behind it.
fn plan_with_rooms<'a, P: Asking>(
    alloc: Global,
    table: &GrantTable,
    placer: &P,
    stock: &Snapshot<'a>,
    e: &Entry<'_>,
    need: &Need,
    kinds: &mut Vec<Rooms>,
    scratch: &mut Scratch<'a>,
) -> Result<Option<Plan>, OutOfMemory>
    requires entry { IsEntry table.now e.now }
    requires stock { IsSnapshot table.now stock.now }
    requires wanted { IsWanted table.now e.now.app.0 e.now.unit.0 need.now }
    requires kinds { AllByRecursion (AreRooms table.now) kinds.old.items }
    ensures found { IfOk result (IsFound table.now (P.usable placer.now) (pairs_on table.now (P.usable placer.now) (pair_of e.now))) }
    ensures kinds { OnOk result (AllByRecursion (AreRooms table.now) kinds.new.items) }
{
    let rooms = rooms_of(alloc, table, stock, need, &mut scratch.parts)?;
    let found = plan_within(alloc, table, placer, stock, &rooms, e, scratch)?;
    kinds.push(rooms)?;
    Ok(found)
}

// The plan of a unit that waits. The rooms for units of its kind are made once another one of its group was tried
// in vain.
fn unit_plan<'a, P: Asking>(
    alloc: Global,
    table: &GrantTable,
    placer: &P,
    stock: &Snapshot<'a>,
    e: &Entry<'_>,
    tried: &mut [bool; 32],
    kinds: &mut Vec<Rooms>,
    scratch: &mut Scratch<'a>,
) -> Result<Option<Plan>, OutOfMemory>
    requires entry { IsEntry table.now e.now }
    requires stock { IsSnapshot table.now stock.now }
    requires kinds { AllByRecursion (AreRooms table.now) kinds.old.items }
    ensures found { IfOk result (IsFound table.now (P.usable placer.now) (pairs_on table.now (P.usable placer.now) (pair_of e.now))) }
    ensures kinds { OnOk result (AllByRecursion (AreRooms table.now) kinds.new.items) }
{
    table.is_sound();
    let group = &stock.groups[e.group];
    let guaranteed = is_guaranteed(table, group, e);
    if let Some(at) = place_for(kinds, e.group, e.priority, guaranteed) {
        return plan_within(alloc, table, placer, stock, &kinds[at], e, scratch);
    }
    let need = match need_of(table, group, e) {
        Some(need) => need,
        None => return Ok(None),
    };
    if tried[e.group] {
        return plan_with_rooms(alloc, table, placer, stock, e, &need, kinds, scratch);
    }
    tried[e.group] = true;
    first_machine(alloc, table, placer, stock, e, &need, scratch)
}

// The plan of the first unit of a priority that has victims.
fn first_unit<'a, P: Asking>(
    alloc: Global,
    table: &GrantTable,
    placer: &P,
    stock: &Snapshot<'a>,
    waiting: &[Entry<'_>],
    priority: u8,
    scratch: &mut Scratch<'a>,
) -> Result<Option<Plan>, OutOfMemory>
    requires entries { AllByRecursion (IsEntry table.now) waiting.now }
    requires stock { IsSnapshot table.now stock.now }
    ensures { IfOk result (IsFound table.now (P.usable placer.now) (pairs_at table.now (P.usable placer.now) priority (map pair_of waiting.now))) }
{
    let mut kinds = Vec::new(alloc);
    let mut tried = [false; 32];
    for e in waiting {
        if e.priority != priority {
            continue;
        }
        match unit_plan(
            alloc, table, placer, stock, e, &mut tried, &mut kinds, scratch,
        )? {
            Some(plan) => return Ok(Some(plan)),
            None => {}
        }
    }
    Ok(None)
}

// The plan of the first unit that has victims, from the greatest priority down.
fn first_of_all<P: Asking>(
    alloc: Global,
    table: &GrantTable,
    placer: &P,
    stock: &Snapshot<'_>,
    waiting: &[Entry<'_>],
) -> Result<Option<Plan>, OutOfMemory>
    requires entries { AllByRecursion (IsEntry table.now) waiting.now }
    requires stock { IsSnapshot table.now stock.now }
    ensures { IfOk result (IsFound table.now (P.usable placer.now) (flat_map (λ n. pairs_at table.now (P.usable placer.now) n (map pair_of waiting.now)) falling_priorities)) }
{
    let mut scratch = Scratch {
        set: Vec::with_capacity(alloc, 8)?,
        parts: Parts::new(alloc)?,
    };
    let present = priorities_of(waiting);
    for late in 0..10_u8 {
        let priority = 9 - late;
        if !present[priority as usize] {
            continue;
        }
        match first_unit(alloc, table, placer, stock, waiting, priority, &mut scratch)? {
            Some(plan) => return Ok(Some(plan)),
            None => {}
        }
    }
    Ok(None)
}

/// The plan of the first pair of a waiting unit and a machine that has victims, and `None` exactly where no pair
/// has any: whatever board says the same as the table and as the one who asks, the plan is that of the board
/// (`plan`). A machine where the unit may not be granted, or holds its greatest number already, is not tried. The
/// plan can be carried out on the table (`made`). Each unit of the line must be admitted. Only want of memory is an
/// error, and it leaves all as it was. What is free is asked at most once for each machine (`steps`).
///
/// The time is linear in the units that have grants, whatever their counts, for each pair that is walked; of a pair of
/// which nothing may be taken only those units are asked of which any grant may be, and one whose machine would have no
/// room for it with all taken that may be costs one test, once a unit of its group and priority was tried in vain.
/// Memory is asked once for the units and for what is free, and besides for each unit that is tried, for each machine
/// that is walked and for what there would be room for.
pub fn find<P: Asking, L: Ledger>(
    alloc: Global,
    table: &GrantTable,
    placer: &P,
    steps: &mut Steps<L>,
) -> Result<Option<Plan>, OutOfMemory>
    requires { AllByRecursion (λ p. p.1 < unit_count (as_known table.now.jobs) p.0) (P.line placer.now) }
    ensures plan { IfOk result (λ found. (B : Board) → IsBoardOf B table.now (P.usable placer.now) → option_map plan_as found ≡ plan_in B table.now.entries (P.line placer.now)) }
    ensures made { IfOk result (λ found. IfSome found (CanBeMade table.now)) }
    ensures steps { steps.new ≤ steps.old + length table.now.cluster.machines }
{
    if placer.waiting_len() == 0 {
        return Ok(None);
    }
    let nothing = Group {
        quota: zero(),
        limit: zero(),
    };
    let groups = groups_of(alloc, table, &nothing)?;
    let units = holders_of(alloc, table)?;
    let line = waiting_of(alloc, table, placer)?;
    if !may_any_take(table, &groups, &units, &line) {
        return Ok(None);
    }
    let holders = by_priority(alloc, &units)?;
    let counts = counts_of(alloc, table, &holders)?;
    let free = free_of(alloc, table, steps)?;
    let stock = Snapshot {
        groups: &groups,
        holders: &holders,
        counts: &counts,
        free: &free,
    };
    Ok(first_of_all(alloc, table, placer, &stock, &line)?)
}

/// The same, where something was learned that is true of the table and of the one who asks. What the search finds
/// out is learned too, and where memory is refused nothing more is. Where it is known that no pair has victims,
/// nothing is read.
pub fn find_from<P: Asking, L: Ledger>(
    alloc: Global,
    table: &GrantTable,
    placer: &P,
    learned: &mut Learned,
    steps: &mut Steps<L>,
) -> Result<Option<Plan>, OutOfMemory>
    requires line { AllByRecursion (λ p. p.1 < unit_count (as_known table.now.jobs) p.0) (P.line placer.now) }
    requires learned { IsTrue table.now (P.usable placer.now) (P.line placer.now) learned.old }
    ensures learned { IsTrue table.now (P.usable placer.now) (P.line placer.now) learned.new }
    ensures plan { IfOk result (λ found. (B : Board) → IsBoardOf B table.now (P.usable placer.now) → option_map plan_as found ≡ plan_in B table.now.entries (P.line placer.now)) }
    ensures made { IfOk result (λ found. IfSome found (CanBeMade table.now)) }
    ensures steps { steps.new ≤ steps.old + length table.now.cluster.machines }
{
    if learned.nobody {
        return Ok(None);
    }
    match find(alloc, table, placer, steps)? {
        Some(plan) => Ok(Some(plan)),
        None => {
            learned.nobody = true;
            Ok(None)
        }
    }
}
