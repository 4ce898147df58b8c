//! Numbers of clients: which edit is executed, and which reply is given again.

ghost use Rattle.std.specs.Prelude.{◌≡◌};
ghost use Rattle.sg_steps.specs.Step.{expected_in, given_in};

use sg_base::limits::MAX_CLIENTS;
use sg_base::{Kind, Sorted};
use sg_records::{Client, Reply};

/// The reply to a number that isn't executed.
pub fn given_reply(clients: &Sorted<Client>, client: u32, seq: u32) -> Option<Reply>
    ensures { result ≡ given_in clients.now.items client seq }
{
    match clients.find(Client::key(client).rank()) {
        None => {
            if seq != 1 {
                Some(Reply::Sequence { expected: 1 })
            } else if clients.as_slice().len() < MAX_CLIENTS as usize {
                None
            } else {
                Some(Reply::Full {
                    kind: Kind::Client,
                    limit: MAX_CLIENTS,
                })
            }
        }
        Some(known) => {
            if known.last == seq {
                Some(known.reply)
            } else if known.last == u32::MAX {
                Some(Reply::Sequence { expected: 0 })
            } else if known.last + 1 == seq {
                None
            } else {
                Some(Reply::Sequence {
                    expected: known.last + 1,
                })
            }
        }
    }
}

/// The number that a client's next edit has; 0 if it has used up its numbers.
pub fn expected(clients: &Sorted<Client>, client: u32) -> u32
    ensures { result ≡ expected_in clients.now.items client }
{
    match clients.find(Client::key(client).rank()) {
        None => 1,
        Some(known) => {
            if known.last == u32::MAX {
                0
            } else {
                known.last + 1
            }
        }
    }
}
