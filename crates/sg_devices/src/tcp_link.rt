// A link over TCP. It is the trusted edge: no contract can say what a socket gives, nor when.
ghost use Rattle.std.specs.Prelude.{◌≡◌, ◌<◌, ◌≤◌, None, length, OnOk, IfOk, IfSome, IsSome};
ghost use Rattle.sg_base.specs.Causes.{HasCause, Rose};

use crate::link::{Link, LinkFailed};
use std::io;
use std::io::{ErrorKind, Read, Write};
use std::net::{Net, OpenStream, TcpStream, ToSocketAddrs};
use std::time::Duration;

/// How many seconds a server may keep a connection, a write or a read waiting. After that the exchange ends: with what
/// came so far, or as a counted fault where nothing did.
pub const ANSWER_SECONDS: u32 = 10;

/// A link to the server at an address. Each exchange has a connection of its own.
#[derive(Drop)]
pub struct TcpLink<R: Net> {
    rt: R,
    address: String,
    wait: u32,
    // The connection of an exchange that was begun.
    stream: Option<R::Stream>,
    faults: u64,
}

impl<R: Net> TcpLink<R> {
    /// A link to this address, as `signage.example:8080`. It touches nothing before the first exchange.
    pub fn new(rt: R, address: String) -> Self
        ensures faults { ⟦<TcpLink<R> as Link>⟧.faults result ≡ 0 }
    {
        TcpLink {
            rt,
            address,
            wait: ANSWER_SECONDS,
            stream: None,
            faults: 0,
        }
    }

    /// The same link, but it waits for `seconds` at most.
    pub fn with_wait(mut self, seconds: u32) -> Self
        requires { 0 < seconds }
        ensures wait { result.wait ≡ seconds }
        ensures faults { result.faults ≡ self.faults }
    {
        self.wait = seconds;
        self
    }

    /// Begins an exchange: connects, and sends the request. One that was begun before and not finished is given up.
    pub fn begin(&mut self, request: &[u8]) -> Result<(), LinkFailed>
        ensures begun { OnOk result (IsSome self.new.stream) }
        ensures cause { HasCause self.old.faults self.new.faults result }
    {
        self.stream = None;
        match asked(&self.rt, self.address.as_str(), self.wait, request) {
            Ok(stream) => {
                self.stream = Some(stream);
                Ok(())
            }
            Err(_) => Err(self.fail()),
        }
    }

    /// Finishes the exchange that was begun: reads to the end of the reply or until `reply` is full, and says how many
    /// bytes came. An error ends the reply there, and is a counted fault where nothing came before it.
    pub fn finish(&mut self, reply: &mut [u8]) -> Result<usize, LinkFailed>
        ensures within { IfOk result (λ n. n ≤ length reply.new) }
        ensures len { length reply.new ≡ length reply.old }
        ensures cause { HasCause self.old.faults self.new.faults result }
    {
        let came = match self.stream.take() {
            Some(mut stream) => read_reply(&mut stream, reply),
            None => None,
        };
        match came {
            Some(count) => Ok(count),
            None => Err(self.fail()),
        }
    }

    /// How often it has failed.
    pub fn faults(&self) -> u64
        ensures { result ≡ ⟦<TcpLink<R> as Link>⟧.faults self.now }
    {
        self.faults
    }

    // Counts an exchange that failed.
    fn fail(&mut self) -> LinkFailed
        ensures rose { Rose self.old.faults self.new.faults }
        ensures later { self.old.faults ≤ self.new.faults }
    {
        self.faults = self.faults.saturating_add(1);
        LinkFailed
    }
}

impl<R: Net> Link for TcpLink<R> {
    ghost told = { λ _. None };

    ghost faults = { λ l. l.faults };

    fn exchange(&mut self, request: &[u8], reply: &mut [u8]) -> Result<usize, LinkFailed> {
        self.begin(request)?;
        self.finish(reply)
    }
}

// A connection to the first of the address's hosts that takes one, over which the request was sent.
fn asked<R: Net>(rt: &R, address: &str, seconds: u32, request: &[u8]) -> io::Result<R::Stream> {
    let wait = Duration::from_secs(u64::from(seconds));
    for host in address.to_socket_addrs(rt)? {
        if let Ok(mut stream) = TcpStream::connect_timeout(rt, &host, wait) {
            stream.set_read_timeout(Some(wait))?;
            stream.set_write_timeout(Some(wait))?;
            stream.set_nodelay(true)?;
            stream.write_all(request)?;
            return Ok(stream);
        }
    }
    Err(ErrorKind::NotConnected.into())
}

// Reads to the end, until the buffer is full, or up to an error. None where an error comes first.
fn read_reply<S: Read>(stream: &mut S, reply: &mut [u8]) -> Option<usize>
    ensures within { IfSome result (λ n. n ≤ length reply.new) }
    ensures len { length reply.new ≡ length reply.old }
{
    let mut count = 0;
    while count < reply.len() {
        match stream.read(&mut reply[count..]) {
            Ok(0) => break,
            Ok(more) => count += more,
            Err(_) if count > 0 => break,
            Err(_) => return None,
        }
    }
    Some(count)
}
