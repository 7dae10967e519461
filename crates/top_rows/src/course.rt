//! The course of an input: what it does while a member lives.
use crate::signs::{Signs, sleep};
use crate::steps::{Awaited, Step};
use std::alloc::Global;
use std::fs;
use std::sync::atomic::Ordering;

/// A frame that means nothing to a node.
const FRAME: &[u8; 5] = b"\0\0\0\x01a";

/// What an input still does.
#[derive(Drop)]
pub struct Course<'a> {
    pub alloc: Global,
    /// Its steps, the last one first.
    pub steps: Vec<Step>,
    /// The frames without meaning that come before them.
    pub frames: u64,
    /// The milliseconds for which it still waits, or gives frames until the member stops.
    pub patience: u32,
    pub signs: &'a Signs,
    pub rt: &'a HostRuntime,
}

/// Whether the file of its slot has the checkpoint of a generation, by the last byte of its number.
fn is_in_slot(rt: &HostRuntime, generation: u64) -> bool {
    let path = if generation % 2 == 0 {
        "./n1.2"
    } else {
        "./n1.3"
    };
    match fs::read(rt, path) {
        Ok(bytes) => match bytes.as_slice().get(8) {
            Some(last) => u64::from(*last) == generation,
            None => false,
        },
        Err(_) => false,
    }
}

impl<'a> Course<'a> {
    /// Whether what is awaited has come.
    fn has_come(&self, awaited: Awaited) -> bool {
        match awaited {
            Awaited::Delivered(place) => self.signs.delivered.load(Ordering::SeqCst) >= place,
            Awaited::Written(count) => self.signs.written.load(Ordering::SeqCst) >= count,
            Awaited::Switched(generation) => is_in_slot(self.rt, generation),
            Awaited::Looked(count) => self.signs.looks.load(Ordering::SeqCst) >= count,
            Awaited::Writing => self.signs.writing.load(Ordering::SeqCst),
            Awaited::Failed => self.signs.failed.load(Ordering::SeqCst),
        }
    }

    /// Waits for what is awaited, as long as there is patience.
    fn wait(&mut self, awaited: Awaited) {
        for _ in 0..self.patience {
            if self.has_come(awaited) {
                return;
            }
            self.patience = self.patience.saturating_sub(1);
            sleep(self.rt);
        }
        if !self.has_come(awaited) {
            self.signs.in_vain.store(true, Ordering::SeqCst);
        }
    }

    /// Adds to the time that has passed.
    fn add(&self, time: u64) {
        self.signs.time.fetch_add(time, Ordering::SeqCst);
    }

    /// Lets time pass, once the clock was looked at, and until it was looked at three times more. The second of
    /// those looks tells the new time, and what follows from it is done before the third.
    fn pass(&mut self, time: u64) {
        self.wait(Awaited::Looked(1));
        self.add(time);
        let looks = self.signs.looks.load(Ordering::SeqCst);
        self.wait(Awaited::Looked(looks.saturating_add(3)));
    }

    /// Does a step. Gives the bytes that come by it.
    fn take(&mut self, step: Step) -> Option<Vec<u8>> {
        match step {
            Step::Bytes(bytes) => return Some(bytes),
            Step::Frames(count) => self.frames = count,
            Step::Stop => {
                self.frames = u64::from(self.patience);
                self.patience = 0;
            }
            Step::Time(time) => self.pass(time),
            Step::Later(time) => self.add(time),
            Step::Failure => {
                self.signs.reading.store(true, Ordering::SeqCst);
                self.wait(Awaited::Failed);
            }
            Step::Wait(awaited) => self.wait(awaited),
            Step::Open => self.signs.open.store(true, Ordering::SeqCst),
            Step::Free => self.signs.stays.store(0, Ordering::SeqCst),
        }
        None
    }

    /// Does its steps up to the next that gives bytes or frames. Gives those bytes.
    fn go_on(&mut self) -> Option<Vec<u8>> {
        for _ in 0..self.steps.len() {
            let step = self.steps.pop()?;
            let bytes = self.take(step);
            if bytes.is_some() || self.frames > 0 {
                return bytes;
            }
        }
        None
    }

    /// The next frame without meaning, if one is to come. With the last for which there was patience, it has
    /// waited in vain.
    fn frame(&mut self) -> Option<Vec<u8>> {
        if self.frames == 0 {
            return None;
        }
        self.frames -= 1;
        if self.frames == 0 && self.patience == 0 {
            self.signs.in_vain.store(true, Ordering::SeqCst);
        }
        sleep(self.rt);
        Vec::from_slice(self.alloc, FRAME).ok()
    }

    /// The bytes that come next. `None` after the last step.
    pub fn next(&mut self) -> Option<Vec<u8>> {
        if self.frames == 0 {
            let bytes = self.go_on();
            if bytes.is_some() {
                return bytes;
            }
        }
        self.frame()
    }
}
