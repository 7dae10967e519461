//! The end that puts.
ghost use Rattle.std.specs.Prelude.{◌≡◌, ◌≤◌, ◌^◌, length};
ghost use Rattle.std.specs.Arc.{arc_value};
ghost use Rattle.crossbeam_queue.specs.Passes.{view, IsPassOf, ruled_capacity};
ghost use Rattle.queue_ends.specs.Rule.{putting};

use crate::rule::{HearsTaken, Known, Puts, Queue, Tells};
use crate::told::Told;
use crossbeam_queue::Pass;
use std::alloc::Global;
use std::sync::{Arc, Wait};

/// The end that puts. It can move to another thread.
#[derive(Drop)]
pub struct PutEnd<T> {
    pub(crate) queue: Arc<Queue<T>, Global>,
    pub(crate) pass: Pass<T, Known<T>>,
    /// How many items were put.
    pub(crate) count: u64,
    pub ghost ours: { IsPassOf (arc_value queue) pass },
    pub ghost role: { view pass ≡ putting (view pass).put (view pass).taken },
    pub ghost counted: { (count ≡ length (view pass).put) × (count ≤ 2 ^ 62) },
}

impl<T: Drop> PutEnd<T> {
    ghost use Rattle.std.specs.Prelude.{◌≡◌, ◌<◌, ◌≤◌, ◌+◌, ◌^◌, [], ◌∷◌, ◌++◌, length, MatchResult};
    ghost use Rattle.queue_ends.specs.Rule.{IsFront};
    ghost use Rattle.queue_ends.specs.Ends.{put_list, heard_taken, put_queue, put_capacity, told_put, told_taken, told_queue, IsSamePut};

    /// Puts an item at the back. It comes back only where the queue was full at one moment of the
    /// call, so that at least its capacity more were put than were heard to be taken.
    pub fn put<R: Wait>(&mut self, rt: &R, item: T) -> Result<(), T>
        requires { length (put_list self.old) < 2 ^ 62 }
        ensures queue { IsSamePut self.old self.new }
        ensures heard { heard_taken self.new ≡ heard_taken self.old }
        ensures list { MatchResult result (λ _. put_list self.new ≡ put_list self.old ++ item ∷ [])
            (λ back. (back ≡ item) × (put_list self.new ≡ put_list self.old) × (length (heard_taken self.old) + put_capacity self.old ≤ length (put_list self.old))) }
    {
        self.queue.push_as::<Puts, R>(rt, &mut self.pass, item)?;
        self.count += 1;
        Ok(())
    }

    /// Tells what was put so far.
    pub fn tell(&mut self) -> Told<T>
        ensures queue { IsSamePut self.old self.new × (told_queue result ≡ put_queue self.old) }
        ensures told { told_put result ≡ put_list self.old }
        ensures same { (put_list self.new ≡ put_list self.old) × (heard_taken self.new ≡ heard_taken self.old) }
    {
        let pass = self.queue.another::<Tells>(&mut self.pass);
        Told { pass }
    }

    /// Hears what was taken. That is a front of what was put.
    pub fn hear(&mut self, told: Told<T>)
        requires { told_queue told ≡ put_queue self.old }
        ensures queue { IsSamePut self.old self.new }
        ensures heard { heard_taken self.new ≡ told_taken told }
        ensures same { put_list self.new ≡ put_list self.old }
        ensures front { IsFront (heard_taken self.new) (put_list self.new) }
    {
        let Told { pass } = told;
        self.queue.absorb::<HearsTaken>(&mut self.pass, pass);
        self.queue.learn_as::<HearsTaken>(&mut self.pass);
    }

    /// How many items were put.
    pub fn count(&self) -> u64
        ensures count { result ≡ length (put_list self.now) }
        ensures few { result ≤ 2 ^ 62 }
    {
        self.count
    }
}
