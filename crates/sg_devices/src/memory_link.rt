// A link in memory, which answers from a list.
ghost use Rattle.std.specs.Prelude.{◌≡◌, ◌≤◌, ◌⊎◌, ◌↔◌, ℕ, List, [], ◌∷◌, ◌++◌, Some, false, length, take, option_map, is_err, is_none, IsErr, IfOk, OnErr, OnOk, MatchOption, None};
ghost use Rattle.sg_base.specs.Causes.{HasCause};
ghost use Rattle.sg_outside.specs.Memory.{NextFails, after_call, no_calls};
ghost use Rattle.sg_outside.specs.Lists.{Grows};
ghost use Rattle.sg_devices.specs.Exchanges.{Tells, exchange_by};
ghost use Rattle.sg_devices.specs.Memory.{told_by};

use crate::link::{Exchange, Link, LinkFailed};
use sg_base::Rows;
use sg_outside::Calls;
use std::alloc::{AllocError, Global};
use std::collections::VecDeque;
use std::marker::Model;

/// A link in memory. It gives the answers that it was made of, in their order, and fails in the calls that it was told,
/// and after the last of them. It tells its exchanges until memory for them runs out.
#[derive(Drop)]
pub struct MemLink {
    alloc: Global,
    answers: VecDeque<Rows<u8>>,
    told: Vec<Exchange>,
    lost: bool,
    calls: Calls,
}

impl Model for MemLink {
    ghost use Rattle.sg_devices.specs.Memory.{LinkInMemory};

    ghost Value = { LinkInMemory };

    ghost view = { λ l. record {
      answers = l.answers.items;
      told = l.told.items;
      lost = l.lost;
      calls = l.calls;
    } };
}

impl MemLink {
    /// A link with these answers, none of which was asked for yet.
    pub fn new(alloc: Global, answers: Vec<Rows<u8>>) -> MemLink
        ensures told { ⟦<MemLink as Link>⟧.told result ≡ Some [] }
        ensures faults { ⟦<MemLink as Link>⟧.faults result ≡ 0 }
        ensures start { result ≡
            record { answers = answers.items; told = []; lost = false; calls = no_calls } }
    {
        MemLink {
            alloc,
            answers: VecDeque::from_vec(answers),
            told: Vec::new(alloc),
            lost: false,
            calls: Calls::new(alloc),
        }
    }

    /// The same link, but the calls of these numbers fail. The first call ever made has the number 1.
    pub fn with_failing(mut self, failing: Vec<u64>) -> MemLink
        ensures { result ≡ record self { calls = record self.calls { failing = failing.items } } }
    {
        self.calls.set_failing(failing);
        self
    }

    /// The exchanges so far, or none where memory for them ran out.
    pub fn told(&self) -> Option<&[Exchange]>
        ensures { option_map (λ told. told.now) result ≡ told_by self.now }
    {
        if self.lost {
            None
        } else {
            Some(self.told.as_slice())
        }
    }

    /// How often it has failed.
    pub fn faults(&self) -> u64
        ensures { result ≡ self.now.calls.faults }
    {
        self.calls.faults()
    }

    // Counts a call, and gives the next answer unless the call fails.
    fn next_answer(&mut self) -> Option<Rows<u8>>
        ensures answers { MatchOption result (self.new.answers ≡ self.old.answers)
            (λ answer. self.old.answers ≡ answer ∷ self.new.answers) }
        ensures listed { result ≡ None ↔ NextFails self.old.calls ⊎ self.old.answers ≡ [] }
        ensures calls { self.new.calls ≡ after_call self.old.calls (is_none result) }
        ensures later { self.old.calls.faults ≤ self.new.calls.faults }

        // What it tells is as it was.
        ensures told { self.new.told ≡ self.old.told }
        ensures lost { self.new.lost ≡ self.old.lost }
    {
        if self.calls.next_fails() {
            self.calls.count(true);
            return None;
        }
        let answer = self.answers.pop_front();
        self.calls.count(answer.is_none());
        answer
    }

    // Tells one exchange more, or nothing any more where memory for it runs out.
    fn tell(&mut self, request: &[u8], room: usize, answer: Option<Rows<u8>>)
        ensures told { Grows (told_by self.old) (told_by self.new)
            (exchange_by request.now room answer [] ∷ []) }

        // The answers to come and the calls are as they were.
        ensures answers { self.new.answers ≡ self.old.answers }
        ensures calls { self.new.calls ≡ self.old.calls }
    {
        self.lost = self.lost || self.note(request, room, answer).is_err();
    }

    // Puts one exchange more after those so far.
    fn note(
        &mut self,
        request: &[u8],
        room: usize,
        answer: Option<Rows<u8>>,
    ) -> Result<(), AllocError>
        ensures told { OnOk result (self.new.told ≡
            self.old.told ++ exchange_by request.now room answer [] ∷ []) }
        ensures lost { self.new.lost ≡ self.old.lost }
        ensures answers { self.new.answers ≡ self.old.answers }
        ensures calls { self.new.calls ≡ self.old.calls }
    {
        let exchange = Exchange {
            request: Rows::from_vec(request.to_vec(self.alloc)?),
            room,
            answer,
            note: Rows::from_vec(Vec::new(self.alloc)),
        };
        self.told.push(exchange)?;
        Ok(())
    }
}

impl Link for MemLink {
    ghost use Rattle.sg_devices.specs.Memory.{told_by};

    ghost told = { told_by };

    ghost faults = { λ l. l.calls.faults };

    fn exchange(&mut self, request: &[u8], reply: &mut [u8]) -> Result<usize, LinkFailed>
        ensures told { Tells (told_by self.old) (told_by self.new) request.now result reply.new }
        ensures within { IfOk result (λ n. n ≤ length reply.new) }
        ensures len { length reply.new ≡ length reply.old }
        ensures cause { HasCause self.old.calls.faults self.new.calls.faults result }

        // It gives the next answer, as far as there is room.
        ensures came { IfOk result (λ n. (answer : List ℕ)
            × (self.old.answers ≡ answer ∷ self.new.answers)
            × (take n reply.new ≡ take (length reply.old) answer)) }
        ensures kept { OnErr result (self.new.answers ≡ self.old.answers) }

        // It fails in the calls that it was told and where no answer is left, and in no other.
        ensures listed { IsErr result ↔ NextFails self.old.calls ⊎ self.old.answers ≡ [] }
        ensures calls { self.new.calls ≡ after_call self.old.calls (is_err result) }
    {
        let Some(answer) = self.next_answer() else {
            self.tell(request, reply.len(), None);
            return Err(LinkFailed);
        };
        let mut bytes = answer.into_vec();
        bytes.truncate(reply.len());
        let count = bytes.len();
        put_front(reply, bytes.as_slice());
        self.tell(request, reply.len(), Some(Rows::from_vec(bytes)));
        Ok(count)
    }
}

// Puts bytes at the front of a buffer.
fn put_front(buffer: &mut [u8], bytes: &[u8])
    requires { length bytes.now ≤ length buffer.old }
    ensures front { take (length bytes.now) buffer.new ≡ bytes.now }
    ensures len { length buffer.new ≡ length buffer.old }
{
    buffer[..bytes.len()].copy_from_slice(bytes);
}
