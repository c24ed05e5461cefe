ghost use Rattle.std.specs.Prelude.{◌≡◌};
ghost use Rattle.fuxi_io.specs.UsageTraces.{unused, trace_read, trace_written, trace_failed, trace_closed};

/// In which order a connection was read, written to and closed.
#[derive(Clone, Copy, Debug, Drop, PartialEq, Eq)]
pub struct UsageTrace {
    /// It was read.
    pub read: bool,
    /// It was written to.
    pub written: bool,
    /// It was read after it was written to.
    pub asked: bool,
    /// It was written to after it was read.
    pub answered: bool,
    /// A read or a write on it failed.
    pub failed: bool,
    /// It was closed.
    pub closed: bool,
    /// It was read or written to after that failed, or after it was closed, or it was closed again.
    pub late: bool,
}

impl UsageTrace {
    // Of a connection that was not used.
    pub(crate) fn new() -> UsageTrace
        ensures { result ≡ unused }
    {
        UsageTrace {
            read: false,
            written: false,
            asked: false,
            answered: false,
            failed: false,
            closed: false,
            late: false,
        }
    }

    // Once it is read.
    pub(crate) fn after_read(self) -> UsageTrace
        ensures { result ≡ trace_read self }
    {
        UsageTrace {
            read: true,
            written: self.written,
            asked: self.asked | self.written,
            answered: self.answered,
            failed: self.failed,
            closed: self.closed,
            late: self.late | (self.failed | self.closed),
        }
    }

    // Once it is written to.
    pub(crate) fn after_write(self) -> UsageTrace
        ensures { result ≡ trace_written self }
    {
        UsageTrace {
            read: self.read,
            written: true,
            asked: self.asked,
            answered: self.answered | self.read,
            failed: self.failed,
            closed: self.closed,
            late: self.late | (self.failed | self.closed),
        }
    }

    // Once a read or a write has failed.
    pub(crate) fn after_fault(self) -> UsageTrace
        ensures { result ≡ trace_failed self }
    {
        UsageTrace {
            read: self.read,
            written: self.written,
            asked: self.asked,
            answered: self.answered,
            failed: true,
            closed: self.closed,
            late: self.late | (self.failed | self.closed),
        }
    }

    // Once it is closed.
    pub(crate) fn after_close(self) -> UsageTrace
        ensures { result ≡ trace_closed self }
    {
        UsageTrace {
            read: self.read,
            written: self.written,
            asked: self.asked,
            answered: self.answered,
            failed: self.failed,
            closed: true,
            late: self.late | self.closed,
        }
    }
}
