//! The end that polls.

use queue_ends::take_end::TakeEnd;
use queue_ends::told::Told;
use std::sync::Wait;

/// The end that polls. It can move to another thread.
#[derive(Drop)]
pub struct LinkOut<T> {
    pub(crate) items: TakeEnd<T>,
}

impl<T: Drop> LinkOut<T> {
    ghost use Rattle.std.specs.Prelude.{◌≡◌, ◌≤◌, [], ◌∷◌, ◌++◌, length, MatchOption};
    ghost use Rattle.queue_ends.specs.Rule.{IsFront};
    ghost use Rattle.queue_ends.specs.Ends.{told_queue, told_put, told_taken};
    ghost use Rattle.group_links.specs.Link.{link_taken, link_heard_put, out_link};

    /// Takes the first message that is left. `None` only where there was none at one moment of the
    /// call, so that all was taken that was heard to be put.
    pub fn poll<R: Wait>(&mut self, rt: &R) -> Option<T>
        ensures link { out_link self.new ≡ out_link self.old }
        ensures taken { MatchOption result ((link_taken self.new ≡ link_taken self.old) × IsFront (link_heard_put self.old) (link_taken self.old))
            (λ message. link_taken self.new ≡ link_taken self.old ++ message ∷ []) }
        ensures heard { link_heard_put self.new ≡ link_heard_put self.old }
    {
        self.items.take(rt)
    }

    /// Tells what was taken so far.
    pub fn tell(&mut self) -> Told<T>
        ensures link { (out_link self.new ≡ out_link self.old) × (told_queue result ≡ out_link self.old) }
        ensures told { told_taken result ≡ link_taken self.old }
        ensures same { (link_taken self.new ≡ link_taken self.old) × (link_heard_put self.new ≡ link_heard_put self.old) }
    {
        self.items.tell()
    }

    /// Hears what was put.
    pub fn hear(&mut self, told: Told<T>)
        requires { told_queue told ≡ out_link self.old }
        ensures link { out_link self.new ≡ out_link self.old }
        ensures heard { link_heard_put self.new ≡ told_put told }
        ensures same { link_taken self.new ≡ link_taken self.old }
    {
        self.items.hear(told);
    }

    /// Once as many were taken as were heard to be put, those are a front of what was taken.
    pub fn compare(&mut self)
        requires { length (link_heard_put self.old) ≤ length (link_taken self.old) }
        ensures link { out_link self.new ≡ out_link self.old }
        ensures same { (link_taken self.new ≡ link_taken self.old) × (link_heard_put self.new ≡ link_heard_put self.old) }
        ensures front { IsFront (link_heard_put self.old) (link_taken self.old) }
    {
        self.items.compare();
    }
}
