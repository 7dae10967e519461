//! The steps of a life, and what each of them tells.
ghost use Rattle.std.specs.Prelude.{◌≡◌, ◌<◌, ◌^◌, [], None, IsTrue, length};

use crate::disk::TrialDisk;
use crate::images::{crashed, disk_at, empty_disks, put, sum_of};
use crate::words::{answer_of, bytes_of, entries_of, no_step, number_of, spell, tail_of, word_of};
use checkpoint_store::store::CheckpointStore;
use durable_store::disks::Disks;
use durable_store::reopening::reopen;
use durable_store::store::{Job, Store};
use std::alloc::Global;
use std::io;
use std::mem::replace;
use store_form::checkpoint::Checkpoint;
use store_form::ends::State;
use store_laws::job::Kept;
use store_plan::stops::Stops;

/// A group ends before an entry of seven bytes.
pub struct SevenStops {}

impl Stops for SevenStops {
    ghost use Rattle.std.specs.Prelude.{◌==◌, length};

    ghost stops = { λ entry. length entry == 7 };

    fn stops(entry: &[u8]) -> bool {
        entry.len() == 7
    }
}

/// What stands over the disks of a life.
pub enum Stage {
    /// Nothing.
    Down(Disks<TrialDisk>),
    /// A store.
    Up(Store<TrialDisk>),
    /// The two slots alone.
    Slots(CheckpointStore<TrialDisk>),
}

/// Let go by one call, so that no function that lets one go carries the whole of it.
impl Drop for Stage {
    fn drop(self) {
        match self {
            Stage::Down(_disks) => {}
            Stage::Up(_store) => {}
            Stage::Slots(_slots) => {}
        }
    }
}

/// A generation and its snapshot, or generation 0 without one.
fn told_of_checkpoint(alloc: Global, found: &Option<Checkpoint>) -> io::Result<String> {
    match found {
        Some(checkpoint) => {
            let generation = checkpoint.generation;
            let mut told = format!(in alloc; "{generation}")?;
            spell(alloc, &mut told, checkpoint.snapshot.as_slice())?;
            Ok(told)
        }
        None => Ok(String::from_str(alloc, "0 none")?),
    }
}

/// What a store restores.
fn told_of_kept(alloc: Global, kept: &Kept) -> io::Result<String> {
    let mut told = told_of_checkpoint(alloc, &kept.present)?;
    for entry in kept.entries.as_slice() {
        spell(alloc, &mut told, entry.as_slice())?;
    }
    Ok(told)
}

/// How many entries are firm, the generation, whether a call is due, whether it writes the tail, and
/// whether a job runs.
fn told_of_state(alloc: Global, store: &Store<TrialDisk>) -> io::Result<String> {
    let (firm, generation) = (store.firm(), store.generation());
    let due = if store.is_due::<SevenStops>() {
        " due"
    } else {
        ""
    };
    let tail = if store.wants_tail() { " tail" } else { "" };
    let runs = if store.is_idle() { "" } else { " runs" };
    Ok(format!(in alloc; "{firm} {generation}{due}{tail}{runs}")?)
}

/// What the disk of this number reads.
fn told_of_disk(alloc: Global, disks: &mut Disks<TrialDisk>, device: &str) -> io::Result<String> {
    let mut told = String::from_str(alloc, device)?;
    spell(alloc, &mut told, disk_at(disks, device)?.inner.as_read())?;
    Ok(told)
}

/// Asks for a switch to the next generation.
fn ask(alloc: Global, store: &mut Store<TrialDisk>, words: &str) -> io::Result<&'static str> {
    let Some(generation) = store.generation().checked_add(1) else {
        return Err(no_step("no generation"));
    };
    let snapshot = bytes_of(alloc, words)?;
    let job = Job::Switch {
        generation,
        snapshot,
    };
    Ok(answer_of(store.start(alloc, job)))
}

/// Makes the next device call.
fn call(alloc: Global, store: &mut Store<TrialDisk>, words: &str) -> io::Result<&'static str> {
    let tail = tail_of(alloc, words)?;
    match store.next_call::<SevenStops>(alloc, &tail) {
        Ok(true) => Ok("done"),
        Ok(false) => Ok("more"),
        Err(fault) => Ok(word_of(fault)),
    }
}

/// Whether no job runs and no switch waits.
fn is_plain(store: &Store<TrialDisk>) -> bool
    ensures running { IsTrue result → store.now.plan.running ≡ [] }
    ensures asked { IsTrue result → store.now.plan.asked ≡ None }
{
    store.plan.running.is_empty() && store.plan.asked.is_none()
}

/// Makes entries firm.
#[tactic(auto, using(durable_store::proofs::Appends::idle_unasked))]
fn append(alloc: Global, store: &mut Store<TrialDisk>, words: &str) -> io::Result<&'static str> {
    if store.state == State::Open && !is_plain(store) {
        return Err(no_step("no append"));
    }
    let entries = entries_of(alloc, words)?;
    Ok(answer_of(store.append::<SevenStops>(alloc, entries)))
}

/// Switches to the next generation.
#[tactic(auto, using(durable_store::proofs::Appends::idle_unasked))]
fn switch(alloc: Global, store: &mut Store<TrialDisk>, words: &str) -> io::Result<&'static str> {
    let generation = store.generation().checked_add(1);
    let (Some(generation), true) = (generation, is_plain(store)) else {
        return Err(no_step("no switch"));
    };
    let (snapshot, tail) = words.split_once(' ').unwrap_or((words, ""));
    let tail = tail_of(alloc, tail)?;
    let snapshot = bytes_of(alloc, snapshot)?;
    Ok(answer_of(store.switch::<SevenStops>(alloc, generation, snapshot, &tail)))
}

/// Makes entries firm, with a place in them, and adds their words to a book.
fn add(
    alloc: Global,
    store: &mut Store<TrialDisk>,
    book: &mut String,
    words: &str,
    place: u64,
) -> io::Result<()> {
    let place = format!(in alloc; "{place:016x}")?;
    let words = words.replace(alloc, "@", place.as_str())?;
    append(alloc, store, words.as_str())?;
    book.push_str(" ")?;
    book.push_str(words.as_str())?;
    Ok(())
}

/// Switches to an empty snapshot with the cut of a book at a place, all of whose entries were made.
fn switch_at(
    alloc: Global,
    store: &mut Store<TrialDisk>,
    book: &str,
    place: u64,
) -> io::Result<()> {
    let made = store.firm();
    let words = format!(in alloc; "- {made} cut {place}{book}")?;
    switch(alloc, store, words.as_str())?;
    Ok(())
}

/// Makes the entries of a place firm, and at the end of a period those of a mark, and then switches.
fn decide_place(
    alloc: Global,
    store: &mut Store<TrialDisk>,
    book: &mut String,
    (each, mark): (&str, &str),
    place: u64,
    period: u64,
) -> io::Result<()> {
    add(alloc, store, book, each, place)?;
    if place.checked_rem(period) == Some(0) {
        add(alloc, store, book, mark, place)?;
        switch_at(alloc, store, book.as_str(), place)?;
    }
    Ok(())
}

/// Makes the first entries of a book firm, and those of each place.
fn decide_all(
    alloc: Global,
    store: &mut Store<TrialDisk>,
    numbers: &str,
    first: &str,
    others: (&str, &str),
) -> io::Result<()> {
    let (last, period) = numbers.split_once(' ').ok_or(no_step("no period"))?;
    let (last, period) = (number_of(last)?, number_of(period)?);
    let mut book = String::new(alloc);
    add(alloc, store, &mut book, first, 0)?;
    for place in 1..=last {
        decide_place(alloc, store, &mut book, others, place, period)?;
    }
    Ok(())
}

/// Makes the entries of a book firm: the first ones, those of each place, and at the end of each period
/// those of a mark, and then switches. The last place and the period stand before them.
fn decide(alloc: Global, store: &mut Store<TrialDisk>, words: &str) -> io::Result<()> {
    let mut parts = words.split(" | ");
    let (Some(numbers), Some(first)) = (parts.next(), parts.next()) else {
        return Err(no_step("no first entries"));
    };
    let (Some(each), Some(mark)) = (parts.next(), parts.next()) else {
        return Err(no_step("no entries of a place"));
    };
    decide_all(alloc, store, numbers, first, (each, mark))
}

/// How long the log of the present generation is.
fn log_length(store: &Store<TrialDisk>) -> usize {
    let log = if store.generation() % 2 == 0 {
        &store.disks.even_log
    } else {
        &store.disks.odd_log
    };
    log.inner.as_read().len()
}

/// Makes entries firm in a job that takes a call after the other.
fn start(alloc: Global, store: &mut Store<TrialDisk>, words: &str) -> io::Result<&'static str> {
    let entries = entries_of(alloc, words)?;
    Ok(answer_of(store.start(alloc, Job::Append(entries))))
}

/// Makes a call of a store, and tells its answer.
fn act(
    alloc: Global,
    store: &mut Store<TrialDisk>,
    verb: &str,
    words: &str,
) -> io::Result<&'static str> {
    match verb {
        "start" => start(alloc, store, words),
        "ask" => ask(alloc, store, words),
        "call" => call(alloc, store, words),
        "append" => append(alloc, store, words),
        "switch" => switch(alloc, store, words),
        _ => Err(no_step("no step of a store")),
    }
}

/// The answer of a call and the state after it.
fn told_with_state(alloc: Global, store: &Store<TrialDisk>, answer: &str) -> io::Result<String> {
    let state = told_of_state(alloc, store)?;
    Ok(format!(in alloc; "{answer} {state}")?)
}

/// The state, and how long the log of the present generation is.
fn told_with_length(alloc: Global, store: &Store<TrialDisk>) -> io::Result<String> {
    let length = log_length(store);
    let state = told_of_state(alloc, store)?;
    Ok(format!(in alloc; "{state}, {length}")?)
}

/// Plays a step of a store.
fn play_store(
    alloc: Global,
    store: &mut Store<TrialDisk>,
    verb: &str,
    words: &str,
) -> io::Result<String> {
    match verb {
        "reads" => told_of_disk(alloc, &mut store.disks, words),
        "sum" => {
            let sum = sum_of(alloc, &store.disks)?;
            Ok(format!(in alloc; "{sum}")?)
        }
        "decide" => {
            decide(alloc, store, words)?;
            told_with_length(alloc, store)
        }
        _ => {
            let answer = act(alloc, store, verb, words)?;
            told_with_state(alloc, store, answer)
        }
    }
}

/// The newest checkpoint of the two slots.
fn newest(alloc: Global, slots: &mut CheckpointStore<TrialDisk>) -> io::Result<String> {
    match slots.newest(alloc) {
        Ok(found) => told_of_checkpoint(alloc, &found),
        Err(fault) => Ok(String::from_str(alloc, word_of(fault))?),
    }
}

/// Makes a call of the two slots, and tells its answer.
fn act_on_slots(
    alloc: Global,
    slots: &mut CheckpointStore<TrialDisk>,
    verb: &str,
    generation: u64,
    snapshot: &[u8],
) -> io::Result<&'static str>
    requires { length snapshot.now < 2 ^ 32 }
{
    if generation == 0 || !slots.is_idle(generation) {
        return Err(no_step("no slot"));
    }
    match verb {
        "close" => Ok(answer_of(slots.close_slot(generation))),
        "fill" => Ok(answer_of(slots.fill_slot(alloc, generation, snapshot))),
        "gate" => Ok(answer_of(slots.gate_slot(generation))),
        _ => Err(no_step("no step of slots")),
    }
}

/// Plays a step of the two slots.
fn play_slots(
    alloc: Global,
    slots: &mut CheckpointStore<TrialDisk>,
    verb: &str,
    words: &str,
) -> io::Result<String> {
    if verb == "newest" {
        return newest(alloc, slots);
    }
    let (generation, snapshot) = words.split_once(' ').unwrap_or((words, "-"));
    let generation = number_of(generation)?;
    let snapshot = bytes_of(alloc, snapshot)?;
    let answer = act_on_slots(alloc, slots, verb, generation, snapshot.as_slice())?;
    Ok(String::from_str(alloc, answer)?)
}

/// What a store restores, and its state.
fn told_of_opened(alloc: Global, kept: &Kept, store: &Store<TrialDisk>) -> io::Result<String> {
    let mut told = told_of_kept(alloc, kept)?;
    let state = told_of_state(alloc, store)?;
    told.push_str(", ")?;
    told.push_str(state.as_str())?;
    Ok(told)
}

/// Opens a store over the disks, and tells what it restores, and its state.
fn open(alloc: Global, stage: &mut Stage, disks: Disks<TrialDisk>) -> io::Result<String> {
    match reopen(alloc, disks) {
        Ok((store, kept)) => {
            let told = told_of_opened(alloc, &kept, &store);
            *stage = Stage::Up(store);
            told
        }
        Err((fault, _)) => Err(no_step(word_of(fault))),
    }
}

/// Opens the two slots alone, and tells the newest checkpoint.
fn open_slots(alloc: Global, stage: &mut Stage, disks: Disks<TrialDisk>) -> io::Result<String> {
    let Disks {
        even_slot,
        odd_slot,
        ..
    } = disks;
    match checkpoint_store::reopening::reopen(alloc, even_slot, odd_slot) {
        Ok((slots, found)) => {
            let told = told_of_checkpoint(alloc, &found);
            *stage = Stage::Slots(slots);
            told
        }
        Err((fault, _)) => Err(no_step(word_of(fault))),
    }
}

impl Stage {
    /// The disks over which nothing stands.
    fn into_disks(self) -> Option<Disks<TrialDisk>> {
        match self {
            Stage::Down(disks) => Some(disks),
            Stage::Up(_store) => None,
            Stage::Slots(_slots) => None,
        }
    }

    /// Plays a step that does not open.
    fn play(&mut self, alloc: Global, verb: &str, words: &str) -> io::Result<String> {
        match self {
            Stage::Down(disks) if verb == "put" => {
                put(alloc, disks, words)?;
                Ok(String::new(alloc))
            }
            Stage::Down(_) => Err(no_step("no step of disks")),
            Stage::Up(store) if verb == "crash" => {
                let left = crashed(alloc, &store.disks, words)?;
                *self = Stage::Down(left);
                Ok(String::new(alloc))
            }
            Stage::Up(store) => play_store(alloc, store, verb, words),
            Stage::Slots(slots) => play_slots(alloc, slots, verb, words),
        }
    }
}

/// Takes the disks over which nothing stands, and leaves others that hold nothing.
fn take_disks(alloc: Global, stage: &mut Stage) -> io::Result<Disks<TrialDisk>> {
    let empty = Stage::Down(empty_disks(alloc)?);
    replace(stage, empty)
        .into_disks()
        .ok_or(no_step("no disks to open"))
}

/// Plays a step, and tells what it tells.
pub fn play(alloc: Global, stage: &mut Stage, step: &str) -> io::Result<String> {
    let (verb, words) = step.split_once(' ').unwrap_or((step, ""));
    match verb {
        "open" => {
            let disks = take_disks(alloc, stage)?;
            open(alloc, stage, disks)
        }
        "slots" => {
            let disks = take_disks(alloc, stage)?;
            open_slots(alloc, stage, disks)
        }
        _ => stage.play(alloc, verb, words),
    }
}
