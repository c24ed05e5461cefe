ghost use Rattle.std.specs.Prelude.{◌≡◌, None};
ghost use Rattle.fuxi_io.specs.Causes.{HasCause};

use crate::door::Door;
use crate::{Failed, read_again};
use std::io::Write;
use std::net::{Net, OpenListener, OpenStream, Shutdown, SocketAddr, TcpListener, TcpStream};
use std::str;
use std::time::Duration;

// How many seconds a peer may let a connect, a read or a write wait.
const PATIENCE: u64 = 30;

/// A door over TCP. It reads an address as std's `SocketAddr` does, as `127.0.0.1:7000`; any other is a fault.
/// A connect, a read or a write that makes no progress for 30 seconds is given up, which is a fault too; `accept`
/// waits for as long as nobody dials. A call that a signal interrupted is made again. It tells nothing. Its count
/// rises at each error of the system, and at a call that lacks a connection.
#[derive(Drop)]
pub struct TcpDoor<R: Net + Drop> {
    net: R,
    listener: Option<(SocketAddr, R::Listener)>,
    stream: Option<R::Stream>,
    faults: u64,
}

fn read_address(addr: &[u8]) -> Result<SocketAddr, Failed> {
    let Ok(text) = str::from_utf8(addr) else {
        return Err(Failed);
    };
    text.parse::<SocketAddr>().map_err(|_| Failed)
}

fn connect<R: Net>(net: &R, addr: &[u8]) -> Result<R::Stream, Failed> {
    let addr = read_address(addr)?;
    let patience = Duration::from_secs(PATIENCE);
    net.connect_timeout(addr, patience).map_err(|_| Failed)
}

// Has reads and writes of the connection give up where the peer lets them wait.
fn hurried<S: OpenStream + Drop>(stream: S) -> Result<S, Failed> {
    let patience = Some(Duration::from_secs(PATIENCE));
    if stream.set_read_timeout(patience).is_err() || stream.set_write_timeout(patience).is_err() {
        return Err(Failed);
    }
    Ok(stream)
}

impl<R: Net + Drop> TcpDoor<R> {
    /// A door that has not failed yet. It listens at no address, and has no connection.
    pub fn of(net: R) -> TcpDoor<R>
        ensures { result ≡ record { net = net; listener = None; stream = None; faults = 0 } }
    {
        TcpDoor {
            net,
            listener: None,
            stream: None,
            faults: 0,
        }
    }

    // Listens at this address, where it does not yet, and takes one connection.
    fn take(&mut self, addr: &[u8]) -> Result<R::Stream, Failed>
        ensures { self.new.faults ≡ self.old.faults }
    {
        let addr = read_address(addr)?;
        let listener = match self.listener.take() {
            Some((at, listener)) if at == addr => listener,
            _ => TcpListener::bind(&self.net, addr).map_err(|_| Failed)?,
        };
        let taken = listener.accept().map_err(|_| Failed);
        self.listener = Some((addr, listener));
        Ok(taken?.0)
    }

    // Keeps the connection, or counts a fault.
    fn keep(&mut self, stream: Result<R::Stream, Failed>) -> Result<(), Failed>
        ensures { HasCause self.old.faults self.new.faults result }
    {
        match stream.and_then(hurried) {
            Ok(stream) => {
                self.stream = Some(stream);
                Ok(())
            }
            Err(Failed) => {
                self.faults = self.faults.saturating_add(1);
                Err(Failed)
            }
        }
    }
}

impl<R: Net + Drop> Door for TcpDoor<R> {
    ghost use Rattle.std.specs.Prelude.{None};

    ghost told = { λ d. None };

    ghost faults = { λ d. d.faults };

    fn accept(&mut self, addr: &[u8]) -> Result<(), Failed> {
        self.stream = None;
        let stream = self.take(addr);
        self.keep(stream)
    }

    fn dial(&mut self, addr: &[u8]) -> Result<(), Failed> {
        self.stream = None;
        let stream = connect(&self.net, addr);
        self.keep(stream)
    }

    fn read(&mut self, buf: &mut [u8]) -> Result<usize, Failed> {
        if let Some(stream) = &mut self.stream {
            if let Ok(n) = read_again(stream, buf) {
                return Ok(n);
            }
        }
        self.faults = self.faults.saturating_add(1);
        Err(Failed)
    }

    fn write(&mut self, bytes: &[u8]) -> Result<(), Failed> {
        if let Some(stream) = &mut self.stream {
            if stream.write_all(bytes).is_ok() {
                return Ok(());
            }
        }
        self.faults = self.faults.saturating_add(1);
        Err(Failed)
    }

    fn close(&mut self) -> Result<(), Failed> {
        if let Some(stream) = self.stream.take() {
            if stream.shutdown(Shutdown::Both).is_ok() {
                return Ok(());
            }
        }
        self.faults = self.faults.saturating_add(1);
        Err(Failed)
    }
}
