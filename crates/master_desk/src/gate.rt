//! What is called around each call of a session.

/// What a worker calls around each call, without the lock.
pub trait Gate {
    /// The session's call with this number, counted from 1, comes next.
    fn before(&self, session: u32, call: u32);

    /// It was taken.
    fn after(&self, session: u32, call: u32);
}

/// A gate that is always open: it does nothing.
pub struct OpenGate;

impl Gate for OpenGate {
    fn before(&self, session: u32, call: u32) {
        let _both = (session, call);
    }

    fn after(&self, session: u32, call: u32) {
        let _both = (session, call);
    }
}
