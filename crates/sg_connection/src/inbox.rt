//! The bytes of a connection that no message has yet.

ghost use Rattle.std.specs.Prelude.{◌≡◌, ◌+◌, ◌<◌, ◌≤◌, [], ◌++◌, drop, length, vec_capacity, vec_len};
ghost use Rattle.sg_base.specs.declared.limits.TheConstants.{MAX_TAKEN};
ghost use Rattle.sg_connection.specs.Taking.{Comes, Finds};
ghost use Rattle.sg_outside.specs.Streams.{IsApart};

use sg_base::limits::MAX_TAKEN;
use sg_outside::Source;
use std::alloc::Global;
use std::marker::Model;

/// The bytes that were taken and that no message has yet, and how many were taken in all.
#[derive(Drop)]
pub(crate) struct Inbox {
    bytes: Vec<u8>,
    total: u64,
}

impl Model for Inbox {
    ghost use Rattle.sg_connection.specs.Taking.{Unread};

    ghost Value = { Unread };

    ghost view = { λ i. record { stream = i.bytes.items; total = i.total } };
}

/// What one take found.
#[derive(Clone, Copy)]
pub(crate) enum Taken {
    More,
    // The source has no more.
    End,
    Failed,
    // As many bytes were taken as one connection may have.
    Spent,
    NoMemory,
}

impl Inbox {
    /// Nothing was taken.
    pub(crate) fn new(alloc: Global) -> Inbox
        ensures { result ≡ record { stream = []; total = 0 } }
    {
        Inbox {
            bytes: Vec::new(alloc),
            total: 0,
        }
    }

    /// The bytes that no message has yet.
    pub(crate) fn stream(&self) -> &[u8]
        ensures { result.now ≡ self.now.stream }
    {
        self.bytes.as_slice()
    }

    /// Gives up the first bytes, which a message had.
    pub(crate) fn pass(&mut self, used: usize)
        requires { used ≤ length self.old.stream }
        ensures { self.new ≡ record { stream = drop used self.old.stream; total = self.old.total } }
    {
        let rest = self.bytes.len() - used;
        self.bytes.copy_within(used.., 0);
        self.bytes.truncate(rest);
    }

    /// Takes the next bytes of a source, as many as the piece has room for at most. Memory is wanted before any is taken.
    pub(crate) fn take<S: Source>(&mut self, source: &mut S, piece: &mut [u8]) -> Taken
        requires limit { self.old.total ≤ MAX_TAKEN }
        requires room { 0 < length piece.old }
        ensures comes { Comes (S.left source.old) (S.left source.new) self.old self.new }
        ensures finds { Finds result (S.left source.new)
            (S.take_faults source.old) (S.take_faults source.new) self.old self.new }
        ensures limit { self.new.total ≤ MAX_TAKEN }
        ensures apart { IsApart (S.written source.old) (S.written source.new)
            (S.put_faults source.old) (S.put_faults source.new) }
    {
        let left = MAX_TAKEN - self.total;
        if left == 0 {
            return Taken::Spent;
        }
        let room = piece.len().min(left as usize);
        if self.bytes.reserve(room).is_err() {
            return Taken::NoMemory;
        }
        let part = &mut piece[..room];
        match source.take(part) {
            Ok(0) => Taken::End,
            Ok(count) => {
                add(&mut self.bytes, &part[..count]);
                self.total += count as u64;
                Taken::More
            }
            Err(_) => Taken::Failed,
        }
    }
}

// Adds bytes, for which there is room.
fn add(into: &mut Vec<u8>, bytes: &[u8])
    requires { vec_len into.old + length bytes.now ≤ vec_capacity into.old }
    ensures { into.new.items ≡ into.old.items ++ bytes.now }
{
    match into.extend_from_slice(bytes) {
        Ok(()) => {}
        Err(_) => unreachable!(),
    }
}
