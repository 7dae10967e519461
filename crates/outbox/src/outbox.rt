//! The outbox itself.
ghost use Rattle.std.specs.Prelude.{◌≡◌, ◌==◌, ◌++◌, ◌∷◌, [], length, IfOk, OnOk, OnErr};
ghost use Rattle.node_rules.specs.Steps.{first_leaving, after_first, leaving, staying};

use node_rules::node::{Held, Target};
use smart_base::sequence::Sequence;
use smart_messages::message::Message;
use std::alloc::{AllocError, Global};
use std::collections::VecDeque;
use std::marker::Model;
use std::mem;

/// The outbox: messages that wait until so many entries of their member's book are firm, in the order
/// in which they were held. That replies wait is Dura-SMaRt's (USENIX ATC 2013); that votes do is
/// this project's own rule. A message waits for each that was held before it, so the order is kept.
pub struct Outbox {
    held: VecDeque<Held>,
}

/// Let go by one call, so that no function that lets one go carries the whole of it.
impl Drop for Outbox {
    fn drop(self) {
        let Outbox { held: _ } = self;
    }
}

impl Model for Outbox {
    ghost use Rattle.std.specs.Prelude.{List};
    ghost use Rattle.node_rules.specs.declared.node.Held.{Held};

    ghost Value = { List Held };

    ghost view = { λ o. o.held.items };
}

impl Outbox {
    /// The empty outbox. It needs no memory.
    pub fn new(alloc: Global) -> Self
        ensures { result ≡ [] }
    {
        Outbox {
            held: VecDeque::new(alloc),
        }
    }

    /// Holds a message after all others, until as many entries are firm as it needs. Error: want of
    /// memory; the message is not held then.
    pub fn hold(&mut self, to: Target, message: Message, needs: u64) -> Result<(), AllocError>
        ensures ok { OnOk result (self.new ≡ self.old ++ record { to = to; message = message; needs = needs } ∷ []) }
        ensures err { OnErr result (self.new ≡ self.old) }
    {
        self.held.push_back(Held { to, message, needs })?;
        Ok(())
    }

    /// Takes the first message out, if as many entries are firm as it needs. Gives `None` if and only
    /// if it waits or none is held. It needs no memory, and its cost does not grow with what is held.
    pub fn release(&mut self, firm: u64) -> Option<Held>
        ensures held { result ≡ first_leaving firm self.old }
        ensures rest { self.new ≡ after_first firm self.old }
    {
        match self.held.front() {
            Some(first) if first.needs <= firm => self.held.pop_front(),
            Some(_) | None => None,
        }
    }

    /// Takes the messages out, in order, up to the first that waits. Error: want of memory; none is
    /// taken out then. The cost is linear in what is held.
    #[tactic(auto, using(crate::proofs::Leaving::few_leaving, crate::proofs::Leaving::take_leaving, crate::proofs::Leaving::drop_leaving, crate::proofs::Leaving::none_leaving, crate::proofs::Leaving::all_staying))]
    pub fn release_all(&mut self, firm: u64) -> Result<Sequence<Held>, AllocError>
        ensures held { IfOk result (λ left. left ≡ leaving firm self.old) }
        ensures rest { OnOk result (self.new ≡ staying firm self.old) }
        ensures err { OnErr result (self.new ≡ self.old) }
    {
        let count = count_leaving(&self.held, firm);
        if count == 0 {
            return Ok(Sequence::new(*self.held.allocator()));
        }
        let rest = self.held.split_off(count)?;
        let left = mem::replace(&mut self.held, rest);
        Ok(Sequence::from_vec(left.into_vec()))
    }

    /// Whether nothing is held.
    pub fn is_empty(&self) -> bool
        ensures { result ≡ (length self.now == 0) }
    {
        self.held.is_empty()
    }

    /// The number of held messages.
    pub fn len(&self) -> usize
        ensures { result ≡ length self.now }
    {
        self.held.len()
    }
}

/// The number of messages that leave: those before the first that waits.
fn count_leaving(held: &VecDeque<Held>, firm: u64) -> usize
    ensures { result ≡ length (leaving firm held.now.items) }
{
    for index in 0..held.len() {
        if held[index].needs > firm {
            return index;
        }
    }
    held.len()
}
