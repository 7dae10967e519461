//! The members of a group as they run, and how one of them runs.
ghost use Rattle.std.specs.Prelude.{◌≡◌, None, Some};
ghost use Rattle.group_threads.specs.Desks.{IsReady, IsLeft};

use crate::desk::{Desk, MemberEnds};
use crate::member::{Worked, work};
use clock_gate::clock::Clock;
use clock_gate::gate::Gate;
use disk_model::disk::Disk;
use group_seat::seat::GroupCell;
use node_course::group_life::GroupLife;
use smart_base::name::MemberId;
use smart_io::stream::Sink;
use smart_service::service::Service;
use std::sync::atomic::AtomicBool;
use std::sync::{Mutex, Wait};
use std::thread::Threads;
use store_plan::stops::Stops;

/// A member that runs: its seat under a lock, and what its workers work on. All members of a group bear one
/// name, which tells apart what belongs to whom by the member's number. `desk` is `None` only while its
/// loops run.
pub struct Runner<S: Service, P: GroupLife<S>, O: Sink, D: Disk> {
    pub member: MemberId,
    pub cell: GroupCell<S, P, O>,
    pub desk: Option<Desk<D>>,
    /// Why its loops ended, once they have run.
    pub ends: MemberEnds,
}

/// The members of a group.
pub struct Members<S: Service, P: GroupLife<S>, O: Sink, D: Disk> {
    pub runners: Vec<Runner<S, P, O, D>>,
}

/// Puts a desk where none is.
fn put_back<D: Disk>(place: &mut Option<Desk<D>>, desk: Desk<D>)
    requires { place.old ≡ None }
    ensures { place.new ≡ Some desk }
{
    match place.replace(desk) {
        None => {}
        Some(_) => unreachable!(),
    }
}

/// Runs the four loops of one member, each in a thread, until all have ended.
pub(crate) fn run_member<
    S: Service + Send,
    P: GroupLife<S> + Send,
    O: Sink + Send,
    D: Disk,
    E: Stops,
    K: Clock + Send,
    G: Gate + Sync,
    R: Threads + Wait + Sync,
>(rt: &R, gate: &G, ended: &AtomicBool, clock: &Mutex<K>, runner: &mut Runner<S, P, O, D>)
    requires ready { IsReady D.told D.cells (P.lane runner.old.member) (P.restored runner.old.member) runner.old.desk }
    ensures left { IsLeft D.told D.remembers D.cells D.moment D.left_since E.stops D.faults S.meaning (P.opening runner.old.member) (P.lane runner.old.member) (P.restored runner.old.member) runner.new.ends runner.old.desk runner.new.desk }
    ensures same { runner.new.member ≡ runner.old.member }
{
    let Some(desk) = runner.desk.take() else {
        return;
    };
    let Worked { desk, ends } = work::<S, P, O, D, E, K, G, R>(
        rt,
        &runner.cell,
        gate,
        &runner.member,
        ended,
        clock,
        desk,
    );
    put_back(&mut runner.desk, desk);
    runner.ends = ends;
}
