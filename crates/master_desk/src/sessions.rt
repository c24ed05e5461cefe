//! The calls of sessions, as bytes.

ghost use Rattle.std.specs.Prelude.{◌≡◌, ◌+◌, ◌-◌, ◌<◌, ◌≤◌, ◌++◌, ◌∷◌, [], length, get_or, set, replicate, IfOk, OnOk, OnErr};
ghost use Rattle.master_desk.specs.CallOrders.{IsSessions, calls_of, most_calls, most_sessions, total};

use crate::limits::{MOST_CALLS, MOST_SESSIONS};
use fuxi_terms::OutOfMemory;
use std::alloc::Global;
use std::marker::Model;

// One call.
#[derive(Drop)]
struct Call {
    bytes: Vec<u8>,
}

impl Model for Call {
    ghost use Rattle.std.specs.Prelude.{ℕ, List};

    ghost Value = { List ℕ };

    ghost view = { λ c. c.bytes.items };
}

// The calls of one session.
#[derive(Drop)]
struct Session {
    calls: Vec<Call>,
}

impl Model for Session {
    ghost use Rattle.std.specs.Prelude.{ℕ, List};

    ghost Value = { List (List ℕ) };

    ghost view = { λ s. s.calls.items };
}

impl Session {
    fn new(alloc: Global) -> Session
        ensures { result ≡ [] }
    {
        Session {
            calls: Vec::new(alloc),
        }
    }

    fn push(&mut self, call: Call) -> Result<(), OutOfMemory>
        ensures ok { OnOk result (self.new ≡ self.old ++ call ∷ []) }
        ensures err { OnErr result (self.new ≡ self.old) }
    {
        match self.calls.push(call) {
            Ok(()) => Ok(()),
            Err(_) => Err(OutOfMemory),
        }
    }

    fn len(&self) -> usize
        ensures { result ≡ length self.now }
    {
        self.calls.len()
    }

    fn at(&self, index: usize) -> &[u8]
        requires { index < length self.now }
        ensures { result.now ≡ get_or self.now index [] }
    {
        &self.calls[index].bytes
    }
}

// A copy of the bytes.
fn copy(alloc: Global, bytes: &[u8]) -> Result<Call, OutOfMemory>
    ensures { IfOk result (λ call. call ≡ bytes.now) }
{
    let mut own = Vec::new(alloc);
    match own.extend_from_slice(bytes) {
        Ok(()) => Ok(Call { bytes: own }),
        Err(_) => Err(OutOfMemory),
    }
}

/// The calls of 64 sessions, each a list of byte strings. They are 10,000 at most, all together.
#[derive(Drop)]
pub struct Sessions {
    alloc: Global,
    sessions: Vec<Session>,
    added: u32,
}

impl Model for Sessions {
    ghost use Rattle.std.specs.Prelude.{◌≡◌, ℕ, List};
    ghost use Rattle.master_desk.specs.CallOrders.{IsSessions, total};

    ghost Value = { List (List (List ℕ)) };

    ghost view = { λ s. s.sessions.items };

    ghost invariant = { λ s. IsSessions s.sessions.items × (s.added ≡ total s.sessions.items) };
}

// So many sessions without calls.
fn no_calls(alloc: Global, count: u32) -> Result<Vec<Session>, OutOfMemory>
    ensures { IfOk result (λ sessions. sessions.items ≡ replicate count []) }
{
    let mut sessions = Vec::new(alloc);
    for session in 0..count {
        match sessions.push(Session::new(alloc)) {
            Ok(()) => {}
            Err(_) => return Err(OutOfMemory),
        }
    }
    Ok(sessions)
}

impl Sessions {
    /// No session has a call.
    pub fn start(alloc: Global) -> Result<Sessions, OutOfMemory>
        ensures none { IfOk result (λ sessions. sessions ≡ replicate most_sessions []) }
        ensures total { IfOk result (λ sessions. total sessions ≡ 0) }
    {
        match no_calls(alloc, MOST_SESSIONS) {
            Ok(sessions) => Ok(Sessions {
                alloc,
                sessions,
                added: 0,
            }),
            Err(OutOfMemory) => Err(OutOfMemory),
        }
    }

    /// One call more of a session, behind its others. Want of memory leaves them as they were.
    pub fn add(&mut self, session: u32, bytes: &[u8]) -> Result<(), OutOfMemory>
        requires session { session < most_sessions }
        requires few { total self.old < most_calls }
        ensures ok { OnOk result (self.new ≡ set self.old session (calls_of self.old session ++ bytes.now ∷ [])) }
        ensures total { OnOk result (total self.new ≡ total self.old + 1) }
        ensures err { OnErr result (self.new ≡ self.old) }
    {
        let call = match copy(self.alloc, bytes) {
            Ok(call) => call,
            Err(OutOfMemory) => return Err(OutOfMemory),
        };
        match self.sessions[session as usize].push(call) {
            Ok(()) => {
                self.added += 1;
                Ok(())
            }
            Err(OutOfMemory) => Err(OutOfMemory),
        }
    }

    /// How many calls all sessions have.
    pub fn len(&self) -> u32
        ensures len { result ≡ total self.now }
        ensures few { result ≤ most_calls }
        ensures sound { IsSessions self.now }
    {
        self.added
    }

    /// How many calls a session has.
    pub fn calls(&self, session: u32) -> u32
        requires { session < most_sessions }
        ensures len { result ≡ length (calls_of self.now session) }
        ensures few { result ≤ most_calls }
    {
        self.sessions[session as usize].len() as u32
    }

    /// The bytes of a call of a session. Its calls count from 1.
    pub fn bytes(&self, session: u32, call: u32) -> &[u8]
        requires session { session < most_sessions }
        requires first { 1 ≤ call }
        requires there { call ≤ length (calls_of self.now session) }
        ensures { result.now ≡ get_or (calls_of self.now session) (call - 1) [] }
    {
        self.sessions[session as usize].at(call as usize - 1)
    }
}
