//! The play of a script over the service that its header names.
ghost use Rattle.std.specs.Prelude.{◌≡◌, false, IfOk, OnOk, IsErrOf, length};
ghost use Rattle.world_rules.specs.Worlds.{core_course};
ghost use Rattle.script_play.specs.Apps.{core_courses, play_after, play_answer, app_begun, app_after, app_answer, is_over, sent_count};

use crate::status::Refusal;
use app_count::Count;
use app_kv::KeyValueStore;
use smart_base::sequence::Sequence;
use smart_service::service::Service;
use std::alloc::{AllocError, Global};
use world_core::world::{World, WorldEnd};
use world_rules::line::{App, Header, Kind, Line, OutLine};

/// A play, by its service.
pub enum AppPlay {
    /// The play over a sum.
    Count(World<Count>),
    /// The play over values by keys.
    Kv(World<KeyValueStore>),
}

impl Drop for AppPlay {
    fn drop(self) {
        match self {
            AppPlay::Count(_world) => {}
            AppPlay::Kv(_world) => {}
        }
    }
}

/// Plays a line over a service, and gives what it tells or why it is refused. Error: want of memory.
fn play_line<S: Service>(
    world: &mut World<S>,
    line: Line,
) -> Result<Result<Sequence<OutLine>, Refusal>, AllocError>
    requires { world.old.over ≡ false }
    ensures answer { IfOk result (λ answer. answer ≡ play_answer (core_course S.meaning) world.old line) }
    ensures unchanged { IfOk result (λ answer. IsErrOf answer (Refusal.Script Kind.Refer) → world.new ≡ world.old) }
    ensures after { IfOk result (λ answer. OnOk answer (world.new ≡ play_after (core_course S.meaning) world.old line)) }
{
    match world.play(line) {
        Ok(told) => Ok(Ok(told)),
        Err(WorldEnd::Refer) => Ok(Err(Refusal::Script(Kind::Refer))),
        Err(WorldEnd::Premise(which)) => Ok(Err(Refusal::Premise(which))),
        Err(WorldEnd::Limit) => Ok(Err(Refusal::Limit)),
        Err(WorldEnd::NoMemory) => Err(AllocError),
    }
}

impl AppPlay {
    /// The play of a service at the end of a header. Error: want of memory.
    pub fn begin(alloc: Global, app: App, header: Header) -> Result<AppPlay, AllocError>
        ensures begun { IfOk result (λ play. play ≡ app_begun app header) }
        ensures going { IfOk result (λ play. is_over play ≡ false) }
    {
        match app {
            App::Count => Ok(AppPlay::Count(World::begin(alloc, header)?)),
            App::Kv => Ok(AppPlay::Kv(World::begin(alloc, header)?)),
        }
    }

    /// Plays a line, and gives what it tells or why it is refused. Error: want of memory.
    pub fn play(&mut self, line: Line) -> Result<Result<Sequence<OutLine>, Refusal>, AllocError>
        requires { is_over self.old ≡ false }
        ensures answer { IfOk result (λ answer. answer ≡ app_answer core_courses self.old line) }
        ensures unchanged { IfOk result (λ answer. IsErrOf answer (Refusal.Script Kind.Refer) → self.new ≡ self.old) }
        ensures after { IfOk result (λ answer. OnOk answer (self.new ≡ app_after core_courses self.old line)) }
    {
        match self {
            AppPlay::Count(world) => play_line(world, line),
            AppPlay::Kv(world) => play_line(world, line),
        }
    }

    /// The number of messages that were sent or injected.
    pub fn sent_count(&self) -> u64
        ensures { result ≡ sent_count self.now }
    {
        match self {
            AppPlay::Count(world) => world.sent().len() as u64,
            AppPlay::Kv(world) => world.sent().len() as u64,
        }
    }
}
