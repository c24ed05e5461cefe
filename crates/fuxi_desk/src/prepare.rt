//! What the lines of a desk prepare: a master with its hard state, on a disk in memory, and sessions.

ghost use Rattle.std.specs.Prelude.{◌≡◌, ◌+◌, ◌<◌, ◌≤◌, ℕ, List, false, IfOk};
ghost use Rattle.fuxi_terms.specs.Limits.{most_steps};
ghost use Rattle.spec_roles.specs.HardState.{HardState};
ghost use Rattle.spec_roles.specs.MasterRoles.{MasterRole};
ghost use Rattle.schedule_text.specs.Halting.{anywhere};
ghost use Rattle.schedule_text.specs.Writing.{IsLineEvent};
ghost use Rattle.node_core.specs.Roles.{OfMaster};
ghost use Rattle.node_parties.specs.MasterParties.{StandsAs};
ghost use Rattle.master_desk.specs.CallOrders.{most_calls, most_sessions, total};
ghost use Rattle.fuxi_master.specs.Cores.{StandsFor};
ghost use Rattle.fuxi_desk.specs.DeskLines.{Submits, Calls};
ghost use Rattle.fuxi_desk.specs.Preparing.{IsStepped, Prepared as PreparedSeen, Stands, is_past, prepared_for};
ghost use Rattle.fuxi_desk.specs.Saying.{HasCallLeft, IsSaid, said_of};

use crate::read::DeskLine;
use cluster_desc::Cluster;
use fuxi_io::MemDisk;
use fuxi_master::Master;
use fuxi_terms::OutOfMemory;
use master_desk::{MOST_CALLS, Sessions};
use node_core::{Node, law, push_answer};
use node_parties::MasterNode;
use schedule_text::Event;
use std::alloc::Global;
use std::marker::Model;

// The room of the disk: a record of a job has less than 1,024 bytes, and there are 256 jobs at most.
const ROOM: usize = 257 * 1024;

/// A master of the epoch 1 with its hard state, and sessions. What its calls do is said of everything prepared that it stands for.
pub struct Prepared {
    node: MasterNode,
    disk: MemDisk,
    sessions: Sessions,
}

// Written out, so that who lets one go checks this call and not all of its parts.
impl Drop for Prepared {
    fn drop(self) {
        let Prepared {
            node,
            disk,
            sessions,
        } = self;
    }
}

impl Model for Prepared {
    ghost use Rattle.std.specs.Prelude.{length, None};
    ghost use Rattle.node_parties.specs.MasterParties.{RestsAt};
    ghost use Rattle.fuxi_desk.specs.Preparing.{PreparedRecord};

    ghost Value = { PreparedRecord };

    ghost view = { λ p. record { node = p.node; sessions = p.sessions } };

    ghost invariant = { λ p. RestsAt p.node (length p.disk.told.now.bytes) None };
}

impl Prepared {
    /// The master of a cluster, and no call.
    pub fn start(alloc: Global, cluster: &Cluster) -> Result<Prepared, OutOfMemory>
        ensures stands { IfOk result (λ prepared. Stands prepared (prepared_for cluster.now)) }
        ensures steps { IfOk result (λ prepared. prepared.node.master.steps ≡ 0) }
    {
        let sessions = match Sessions::start(alloc) {
            Ok(sessions) => sessions,
            Err(OutOfMemory) => return Err(OutOfMemory),
        };
        let mut disk = MemDisk::of(alloc, Vec::new(alloc), Vec::new(alloc));
        match disk.room(ROOM) {
            Ok(()) => {}
            Err(OutOfMemory) => return Err(OutOfMemory),
        }
        match MasterNode::open(alloc, cluster, 1, &mut disk) {
            Ok(node) => Ok(Prepared {
                node,
                disk,
                sessions,
            }),
            Err(_) => Err(OutOfMemory),
        }
    }

    /// Whether a line is a call past the greatest number of calls.
    pub fn is_past(&self, line: &DeskLine) -> bool
        ensures past { (p : PreparedSeen) → Stands self.now p → result ≡ is_past p (said_of line.now) }
        ensures left { result ≡ false → HasCallLeft line.now self.now.sessions }
    {
        match line {
            DeskLine::Submit(_) => false,
            DeskLine::Call(..) => self.sessions.len() >= MOST_CALLS,
        }
    }

    // A job is submitted. A disk with no list of faults fails only where it lacks room, so memory was refused.
    fn submit(
        self,
        alloc: Global,
        event: &Event,
        text: &mut Vec<u8>,
    ) -> Result<Prepared, OutOfMemory>
        requires line { IsLineEvent event.now }
        requires steps { self.node.master.steps < most_steps }
        ensures steps { IfOk result (λ after. after.node.master.steps ≤ self.node.master.steps + 1) }
        ensures takes { IfOk result (λ after. (p : PreparedSeen) → Stands self p → IsStepped (Submits (anywhere event.now)) p after text.old.items text.new.items) }
    {
        law::events_command_anywhere();
        let Prepared {
            node,
            disk,
            sessions,
        } = self;
        let mut disk = disk;
        let (node, answer) = match node.command(alloc, event, &mut disk) {
            Ok(after) => after,
            Err(_) => {
                drop(disk);
                drop(sessions);
                return Err(OutOfMemory);
            }
        };
        let prepared = Prepared {
            node,
            disk,
            sessions,
        };
        match push_answer(&answer, text) {
            Ok(()) => Ok(prepared),
            Err(OutOfMemory) => {
                drop(prepared);
                Err(OutOfMemory)
            }
        }
    }

    // A session has one call more.
    fn call(self, session: u32, bytes: &[u8]) -> Result<Prepared, OutOfMemory>
        requires session { session < most_sessions }
        requires few { total self.sessions < most_calls }
        ensures steps { IfOk result (λ after. after.node.master.steps ≡ self.node.master.steps) }
        ensures takes { IfOk result (λ after. (p : PreparedSeen) (text : List ℕ) → Stands self p → IsStepped (Calls session bytes.now) p after text text) }
    {
        let Prepared {
            node,
            disk,
            sessions,
        } = self;
        let mut sessions = sessions;
        match sessions.add(session, bytes) {
            Ok(()) => Ok(Prepared {
                node,
                disk,
                sessions,
            }),
            Err(OutOfMemory) => {
                drop(node);
                drop(disk);
                drop(sessions);
                Err(OutOfMemory)
            }
        }
    }

    /// Takes what a line says, which is no call past the greatest number, and appends what it prints. Where memory is refused it is gone.
    pub fn step(
        self,
        alloc: Global,
        line: DeskLine,
        text: &mut Vec<u8>,
    ) -> Result<Prepared, OutOfMemory>
        requires said { IsSaid line }
        requires few { HasCallLeft line self.sessions }
        requires steps { self.node.master.steps < most_steps }
        ensures steps { IfOk result (λ after. after.node.master.steps ≤ self.node.master.steps + 1) }
        ensures takes { IfOk result (λ after. (p : PreparedSeen) → Stands self p → IsStepped (said_of line) p after text.old.items text.new.items) }
    {
        match line {
            DeskLine::Submit(event) => self.submit(alloc, &event, text),
            DeskLine::Call(session, bytes) => self.call(session, bytes.as_slice()),
        }
    }

    /// The master, and the sessions.
    pub fn into_parts(self) -> (Master, Sessions)
        ensures steps { result.0.steps ≡ self.node.master.steps }
        ensures sessions { result.1 ≡ self.sessions }
        ensures stands { (h : HardState) (r : MasterRole) → StandsAs self.node (OfMaster h r) → StandsFor result.0.core r }
    {
        let Prepared {
            node,
            disk,
            sessions,
        } = self;
        drop(disk);
        (node.into_master(), sessions)
    }
}
