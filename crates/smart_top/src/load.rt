//! The play of a load: each line of its script is played when it is made.
ghost use Rattle.std.specs.Prelude.{◌≡◌, None, Some, IfOk, OnOk, string_bytes};
ghost use Rattle.faults.specs.Counts.{Rose};
ghost use Rattle.app_count.specs.declared.Count.{Count};
ghost use Rattle.load_maker.specs.Loads.{line_text};
ghost use Rattle.world_rules.specs.Plays.{Play};
ghost use Rattle.script_play.specs.Apps.{core_courses};
ghost use Rattle.script_play.specs.Readings.{line_taken};
ghost use Rattle.script_play.specs.Totals.{totals_of, summary_text};
ghost use Rattle.smart_top.specs.Loads.{load_read, HasCount, IsLoadPlay, LoadEnd};

use crate::reader::write_whole;
use app_count::Count;
use faults::Fault;
use load_maker::line::LoadLine;
use load_maker::script::LoadScript;
use script_play::app::AppPlay;
use script_play::script::{Script, script_end};
use script_play::status::Status;
use script_play::totals::{summary, totals_of};
use smart_io::stream::Sink;
use std::alloc::{AllocError, Global};
use world_core::world::World;

/// Plays the next line of a load. What it tells is let go. Error: want of memory.
fn take_load_line(alloc: Global, script: &mut Script, line: LoadLine) -> Result<(), AllocError>
    requires { script.old.refused ≡ None }
    ensures refused { OnOk result (script.new.refused ≡ (line_taken core_courses script.old (line_text line)).refused) }
    ensures count { OnOk result (script.new.count ≡ (line_taken core_courses script.old (line_text line)).count) }
    ensures whole { OnOk result ((line_taken core_courses script.old (line_text line)).refused ≡ None → script.new ≡ line_taken core_courses script.old (line_text line)) }
{
    let mut text = String::new(alloc);
    line.put(&mut text)?;
    script.take_line(text.as_bytes())?;
    Ok(())
}

/// Plays the script of a load, up to a line that is refused. Of the script's text no more than a line is
/// kept; the world keeps the lines' meanings. Nothing of what they tell is kept. Error: want of memory.
fn play_load(alloc: Global, count: u32) -> Result<Script, AllocError>
    ensures refused { IfOk result (λ script. script.refused ≡ (load_read core_courses count).refused) }
    ensures count { IfOk result (λ script. script.count ≡ (load_read core_courses count).count) }
    ensures whole { IfOk result (λ script. script.refused ≡ None → script ≡ load_read core_courses count) }
{
    let mut script = Script::new(alloc);
    let mut lines = LoadScript::new(count);
    'taking: while let Some(line) = lines.next() {
        take_load_line(alloc, &mut script, line)?;
        if script.refused().is_some() {
            return Ok(script);
        }
    }
    Ok(script)
}

/// The play of a script over a sum.
fn world_of(script: &Script) -> &World<Count>
    requires { HasCount script.now }
    ensures { script.now.play ≡ Some (AppPlay.Count result.now) }
{
    match script.play() {
        Some(AppPlay::Count(world)) => world,
        Some(AppPlay::Kv(_)) => unreachable!(),
        None => unreachable!(),
    }
}

/// The summary of a load that was played to its end. Error: want of memory.
fn load_summary(alloc: Global, count: u32, script: &Script) -> Result<String, AllocError>
    requires whole { script.now.refused ≡ None }
    requires read { script.now ≡ load_read core_courses count }
    ensures { IfOk result (λ text. (p : Play Count) × IsLoadPlay count p × (string_bytes text ≡ summary_text count (totals_of p))) }
{
    let totals = totals_of(alloc, world_of(script))?;
    summary(alloc, count, &totals)
}

/// Plays a load, and writes the summary of its play.
pub fn load<O: Sink>(alloc: Global, count: u32, output: &mut O) -> Status
    ensures ended { LoadEnd count (O.written output.old) (O.written output.new) (O.wants output.old) (O.wants output.new) result }
    ensures words { result ≡ Status.Words → ⊥ }
    ensures read { result ≡ Status.ReadFault → ⊥ }
    ensures write { result ≡ Status.WriteFault → Rose (O.faults output.old) (O.faults output.new) }
{
    let script = match play_load(alloc, count) {
        Err(_) => return Status::NoMemory,
        Ok(script) => script,
    };
    if script.refused().is_some() {
        return script_end(&script);
    }
    let text = match load_summary(alloc, count, &script) {
        Err(_) => return Status::NoMemory,
        Ok(text) => text,
    };
    match write_whole(output, text.as_bytes()) {
        Ok(()) => Status::Ok,
        Err(Fault::Failed) => Status::WriteFault,
        Err(Fault::NoMemory) => Status::NoMemory,
    }
}
