//! The end that takes.
ghost use Rattle.std.specs.Prelude.{◌≡◌, ◌≤◌, ◌^◌, length};
ghost use Rattle.std.specs.Arc.{arc_value};
ghost use Rattle.crossbeam_queue.specs.Passes.{view, IsPassOf};
ghost use Rattle.queue_ends.specs.Rule.{taking};

use crate::rule::{HearsPut, Known, Queue, Takes, Tells};
use crate::told::Told;
use crossbeam_queue::Pass;
use std::alloc::Global;
use std::sync::{Arc, Wait};

/// The end that takes. It can move to another thread.
#[derive(Drop)]
pub struct TakeEnd<T> {
    pub(crate) queue: Arc<Queue<T>, Global>,
    pub(crate) pass: Pass<T, Known<T>>,
    /// How many items were taken.
    pub(crate) count: u64,
    pub ghost ours: { IsPassOf (arc_value queue) pass },
    pub ghost role: { view pass ≡ taking (view pass).put (view pass).taken },
    pub ghost counted: { (count ≡ length (view pass).taken) × (count ≤ 2 ^ 62) },
}

impl<T: Drop> TakeEnd<T> {
    ghost use Rattle.std.specs.Prelude.{◌≡◌, ◌≤◌, ◌^◌, [], ◌∷◌, ◌++◌, length, MatchOption};
    ghost use Rattle.queue_ends.specs.Rule.{IsFront};
    ghost use Rattle.queue_ends.specs.Ends.{taken_list, heard_put, take_queue, told_put, told_taken, told_queue, IsSameTake};

    /// Takes the item at the front. `None` only where the queue was empty at one moment of the call,
    /// so that all was taken that was heard to be put.
    pub fn take<R: Wait>(&mut self, rt: &R) -> Option<T>
        ensures queue { IsSameTake self.old self.new }
        ensures heard { heard_put self.new ≡ heard_put self.old }
        ensures list { MatchOption result ((taken_list self.new ≡ taken_list self.old) × IsFront (heard_put self.old) (taken_list self.old))
            (λ item. taken_list self.new ≡ taken_list self.old ++ item ∷ []) }
    {
        let item = self.queue.pop_as::<Takes, R>(rt, &mut self.pass)?;
        self.count += 1;
        Some(item)
    }

    /// Tells what was taken so far.
    pub fn tell(&mut self) -> Told<T>
        ensures queue { IsSameTake self.old self.new × (told_queue result ≡ take_queue self.old) }
        ensures told { told_taken result ≡ taken_list self.old }
        ensures same { (taken_list self.new ≡ taken_list self.old) × (heard_put self.new ≡ heard_put self.old) }
    {
        let pass = self.queue.another::<Tells>(&mut self.pass);
        Told { pass }
    }

    /// Hears what was put.
    pub fn hear(&mut self, told: Told<T>)
        requires { told_queue told ≡ take_queue self.old }
        ensures queue { IsSameTake self.old self.new }
        ensures heard { heard_put self.new ≡ told_put told }
        ensures same { taken_list self.new ≡ taken_list self.old }
    {
        let Told { pass } = told;
        self.queue.absorb::<HearsPut>(&mut self.pass, pass);
    }

    /// Once as many were taken as were heard to be put, those are a front of what was taken.
    pub fn compare(&mut self)
        requires { length (heard_put self.old) ≤ length (taken_list self.old) }
        ensures queue { IsSameTake self.old self.new }
        ensures same { (taken_list self.new ≡ taken_list self.old) × (heard_put self.new ≡ heard_put self.old) }
        ensures front { IsFront (heard_put self.old) (taken_list self.old) }
    {
        self.queue.learn_as::<Takes>(&mut self.pass);
    }

    /// How many items were taken.
    pub fn count(&self) -> u64
        ensures count { result ≡ length (taken_list self.now) }
        ensures few { result ≤ 2 ^ 62 }
    {
        self.count
    }
}
