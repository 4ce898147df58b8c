// A link to the server: one request, and one reply as far as it came.
ghost use Rattle.std.specs.Prelude.{◌≡◌, ◌≤◌, ℕ, List, length, IfOk};
ghost use Rattle.std.specs.declared.option.Option.{Option};
ghost use Rattle.sg_base.specs.Causes.{HasCause};
ghost use Rattle.sg_devices.specs.Exchanges.{Tells};

use sg_base::Rows;
use thiserror::Error;

/// A link failed, and has counted it.
#[derive(Clone, Copy, Debug, PartialEq, Eq, Error)]
#[error("the link failed")]
pub struct LinkFailed;

/// One exchange: what was asked, the room that there was for the reply, and what came of it.
#[derive(Debug, Drop)]
pub struct Exchange {
    pub request: Rows<u8>,
    /// The length of the buffer that was lent, in bytes.
    pub room: usize,
    /// The bytes that came, or none where the exchange failed.
    pub answer: Option<Rows<u8>>,
    /// What the link notes for itself, by which its state can be told from its exchanges. Mostly nothing.
    pub note: Rows<u8>,
}

/// Asks a server.
pub trait Link {
    ghost use Rattle.sg_devices.specs.declared.link.Exchange.{Exchange};

    // The exchanges so far, in their order, where the link tells them.
    ghost told: { Self → Option (List Exchange) };

    // How often an exchange has failed; the count stays at the last value of a u64.
    ghost faults: { Self → ℕ };

    /// Sends the request, and puts what comes back at the front of `reply`, as far as there is room. Says how many bytes
    /// came: a reply that was cut is a shorter one. An exchange in which none could come has been counted as a fault.
    fn exchange(&mut self, request: &[u8], reply: &mut [u8]) -> Result<usize, LinkFailed>
        ensures told { Tells (told self.old) (told self.new) request.now result reply.new }
        ensures within { IfOk result (λ n. n ≤ length reply.new) }
        ensures len { length reply.new ≡ length reply.old }
        ensures cause { HasCause (faults self.old) (faults self.new) result };
}
