// The door over a TCP port. It is the trusted edge: no contract can say who connects, nor what a socket gives.
ghost use Rattle.std.specs.Prelude.{◌≡◌, ◌<◌, ◌≤◌, None, false, OnOk, OnErr, IfOk, IsSome};
ghost use Rattle.sg_base.specs.Causes.{HasCause, Rose};

use crate::door::{Door, DoorFailed};
use crate::ends::{Ends, Sink, SinkFailed, Source, SourceFailed};
use std::io;
use std::io::{ErrorKind, Read, Write};
use std::net::{Net, OpenListener, OpenStream, TcpListener};
use std::time::Duration;

/// How many seconds a client may keep one read or one write waiting. After that the call fails, which is a counted fault
/// of that connection, so that the next client can be served.
pub const STALL_SECONDS: u32 = 30;

/// A connection over a socket. A read or a write that fails, for whatever cause, is a fault and isn't tried again.
#[derive(Drop)]
pub struct TcpConn<S: Read + Write + Drop> {
    stream: S,
    take_faults: u64,
    put_faults: u64,
}

impl<S: Read + Write + Drop> Ends for TcpConn<S> {
    ghost left = { λ _. None };

    ghost take_faults = { λ c. c.take_faults };

    ghost written = { λ _. None };

    ghost put_faults = { λ c. c.put_faults };
}

impl<S: Read + Write + Drop> Source for TcpConn<S> {
    fn take(&mut self, into: &mut [u8]) -> Result<usize, SourceFailed> {
        match self.stream.read(into) {
            Ok(count) => Ok(count),
            Err(_) => {
                self.take_faults = self.take_faults.saturating_add(1);
                Err(SourceFailed)
            }
        }
    }
}

impl<S: Read + Write + Drop> Sink for TcpConn<S> {
    fn put(&mut self, bytes: &[u8]) -> Result<usize, SinkFailed> {
        match self.stream.write(bytes) {
            Ok(count) if count > 0 || bytes.is_empty() => Ok(count),
            _ => {
                self.put_faults = self.put_faults.saturating_add(1);
                Err(SinkFailed)
            }
        }
    }
}

/// A door at a TCP port, which never ends. A read or a write of its connections waits for [`STALL_SECONDS`] at most.
#[derive(Drop)]
pub struct TcpDoor<R: Net> {
    rt: R,
    address: String,
    stall: u32,
    listener: Option<R::Listener>,
    faults: u64,
}

impl<R: Net> TcpDoor<R> {
    /// A door at this address, as `127.0.0.1:8080`. It touches nothing before the first call.
    pub fn new(rt: R, address: String) -> Self
        ensures faults { ⟦<TcpDoor<R> as Door>⟧.faults result ≡ 0 }
        ensures open { ⟦<TcpDoor<R> as Door>⟧.ended result ≡ false }
    {
        TcpDoor {
            rt,
            address,
            stall: STALL_SECONDS,
            listener: None,
            faults: 0,
        }
    }

    /// The same door, but a read or a write of its connections waits for `seconds` at most.
    pub fn with_stall(mut self, seconds: u32) -> Self
        requires { 0 < seconds }
        ensures stall { result.stall ≡ seconds }
        ensures faults { result.faults ≡ self.faults }
    {
        self.stall = seconds;
        self
    }

    /// Binds the port, where that wasn't done yet. A port that can't be bound is a counted fault.
    pub fn listen(&mut self) -> Result<(), DoorFailed>
        ensures bound { OnOk result (IsSome self.new.listener) }
        ensures cause { HasCause self.old.faults self.new.faults result }
    {
        if self.listener.is_some() {
            return Ok(());
        }
        match TcpListener::bind(&self.rt, self.address.as_str()) {
            Ok(listener) => {
                self.listener = Some(listener);
                Ok(())
            }
            Err(_) => Err(self.fail()),
        }
    }

    /// The port that is bound, where one is: that of the address, or for 0 the one that the system chose.
    pub fn port(&self) -> Option<u16> {
        match self.listener.as_ref()?.local_addr() {
            Ok(address) => Some(address.port()),
            Err(_) => None,
        }
    }

    /// How many calls have failed.
    pub fn faults(&self) -> u64
        ensures { result ≡ ⟦<TcpDoor<R> as Door>⟧.faults self.now }
    {
        self.faults
    }

    // Counts a call that failed.
    fn fail(&mut self) -> DoorFailed
        ensures rose { Rose self.old.faults self.new.faults }
        ensures later { self.old.faults ≤ self.new.faults }
    {
        self.faults = self.faults.saturating_add(1);
        DoorFailed
    }

    // The next connection. One that its client gave up first, or that can't be bounded in time, is passed over.
    fn accept(&self) -> io::Result<R::Stream> {
        let Some(listener) = &self.listener else {
            return Err(ErrorKind::NotConnected.into());
        };
        for stream in listener.incoming() {
            match stream {
                Ok(stream) => {
                    if bound(&stream, self.stall).is_ok() {
                        return Ok(stream);
                    }
                }
                Err(error) if error.kind() == ErrorKind::ConnectionAborted => {}
                Err(error) => return Err(error),
            }
        }
        Err(ErrorKind::NotConnected.into())
    }
}

// Bounds how long a read and a write wait, and lets what is written go out at once.
fn bound(stream: &impl OpenStream, seconds: u32) -> io::Result<()> {
    let stall = Some(Duration::from_secs(u64::from(seconds)));
    stream.set_read_timeout(stall)?;
    stream.set_write_timeout(stall)?;
    stream.set_nodelay(true)
}

impl<R: Net> Door for TcpDoor<R> {
    type Conn = TcpConn<R::Stream>;

    ghost coming = { λ _. None };

    ghost back = { λ _. None };

    ghost ended = { λ _. false };

    ghost faults = { λ d. d.faults };

    fn next(&mut self) -> Result<Option<TcpConn<R::Stream>>, DoorFailed> {
        self.listen()?;
        match self.accept() {
            Ok(stream) => Ok(Some(TcpConn {
                stream,
                take_faults: 0,
                put_faults: 0,
            })),
            Err(_) => Err(self.fail()),
        }
    }

    fn done(&mut self, conn: TcpConn<R::Stream>) -> Result<(), DoorFailed> {
        let TcpConn { .. } = conn;
        Ok(())
    }
}
