//! The execution of requests on a replica.
ghost use Rattle.std.specs.Prelude.{◌≡◌, ◌++◌, List, true, false, None, Some, IfOk, OnOk, OnErr, option_map};
ghost use Rattle.std.specs.Option.{option_and_then, option_to_list};
ghost use Rattle.smart_base.specs.Views.{View};
ghost use Rattle.replica_rules.specs.Replicas.{is_next, is_of_manager, line_made, execute, execute_all, lines_of};
ghost use Rattle.delivery.specs.Moves.{IsMoved, IsBegun};

use crate::delivered::Delivered;
use crate::views::{Move, begun_by, both_moves, put_back, take_outcome};
use reconfig::outcome;
use smart_base::duplicate::Duplicate;
use smart_base::sequence::Sequence;
use smart_service::replica::Replica;
use smart_service::service::Service;
use smart_service::table::Execution;
use smart_statements::batch::Batch;
use smart_statements::statement::Request;
use std::alloc::{AllocError, Global};

/// What an executed request gives: its execution, and a move if it began a view.
#[derive(Drop)]
struct Done {
    line: Execution,
    moved: Option<Move>,
}

/// Executes a request of the view manager whose number may be executed now. It may begin a view. The
/// service is not asked. Error: want of memory; the views are as they were.
#[tactic(auto, unfolding(replica_rules::specs::Replicas::execute), using(crate::proofs::Moves::begins_later))]
fn change<S: Service>(
    alloc: Global,
    replica: &mut Replica<S>,
    index: u16,
    request: &Request,
) -> Result<Done, AllocError>
    requires managers { is_of_manager request.now ≡ true }
    requires next { is_next replica.old.table request.now ≡ true }
    ensures state { OnOk result (replica.new ≡ execute S.meaning replica.old index request.now) }
    ensures place { replica.new.place ≡ replica.old.place }
    ensures valid { S.valid replica.old.service → S.valid replica.new.service }
    ensures line { IfOk result (λ done. Some done.line ≡ line_made S.meaning replica.old index request.now) }
    ensures moved { IfOk result (λ done. IsMoved replica.old.views replica.new.views done.moved) }
    ensures err { OnErr result (replica.new.views ≡ replica.old.views) }
{
    let outcome = outcome::execute(alloc, &replica.views, request.op.as_slice(), replica.place)?;
    let reply = outcome.reply(alloc)?;
    let line = Execution {
        client: request.client,
        seq: request.seq,
        place: replica.place,
        index,
        view: replica.views.present().number(),
        reply,
    };
    let copy = line.duplicate(alloc)?;
    replica.table.put(copy)?;
    let moved = take_outcome(alloc, &mut replica.views, &outcome)?;
    Ok(Done { line, moved })
}

/// Executes a client's request whose number may be executed now: the service answers it. Error: want of
/// memory.
#[tactic(auto, unfolding(replica_rules::specs::Replicas::execute))]
fn serve<S: Service>(
    alloc: Global,
    replica: &mut Replica<S>,
    index: u16,
    request: &Request,
) -> Result<Execution, AllocError>
    requires clients { is_of_manager request.now ≡ false }
    requires next { is_next replica.old.table request.now ≡ true }
    ensures state { OnOk result (replica.new ≡ execute S.meaning replica.old index request.now) }
    ensures place { replica.new.place ≡ replica.old.place }
    ensures valid { S.valid replica.old.service → S.valid replica.new.service }
    ensures line { IfOk result (λ line. Some line ≡ line_made S.meaning replica.old index request.now) }
    ensures views { replica.new.views ≡ replica.old.views }
{
    let reply = replica.service.run(alloc, request.op.as_slice())?;
    let line = Execution {
        client: request.client,
        seq: request.seq,
        place: replica.place,
        index,
        view: replica.views.present().number(),
        reply,
    };
    let copy = line.duplicate(alloc)?;
    replica.table.put(copy)?;
    Ok(line)
}

/// Executes a request if its number may be executed now, and gives the execution. Any other request
/// is passed over. Error: want of memory; the views are as they were.
#[tactic(auto, unfolding(replica_rules::specs::Replicas::execute))]
fn execute<S: Service>(
    alloc: Global,
    replica: &mut Replica<S>,
    index: u16,
    request: &Request,
) -> Result<Option<Done>, AllocError>
    ensures state { OnOk result (replica.new ≡ execute S.meaning replica.old index request.now) }
    ensures place { replica.new.place ≡ replica.old.place }
    ensures valid { S.valid replica.old.service → S.valid replica.new.service }
    ensures line { IfOk result (λ done. option_map (λ d. d.line) done ≡ line_made S.meaning replica.old index request.now) }
    ensures moved { IfOk result (λ done. IsMoved replica.old.views replica.new.views (option_and_then (λ d. d.moved) done)) }
    ensures err { OnErr result (replica.new.views ≡ replica.old.views) }
{
    if !replica.table.may_execute(request.client, request.seq) {
        return Ok(None);
    }
    if request.client.get() == 0 {
        let done = change(alloc, replica, index, request)?;
        return Ok(Some(done));
    }
    let line = serve(alloc, replica, index, request)?;
    Ok(Some(Done { line, moved: None }))
}

/// Notes what an executed request gave. Error: want of memory; the move is noted.
fn note(
    lines: &mut Sequence<Execution>,
    moved: &mut Option<Move>,
    done: Option<Done>,
) -> Result<(), AllocError>
    ensures lines { OnOk result (lines.new ≡ lines.old ++ option_to_list (option_map (λ d. d.line) done)) }
    ensures moved { (first second third : List View) → IsMoved first second moved.old → IsMoved second third (option_and_then (λ d. d.moved) done) → IsMoved first third moved.new }
{
    match done {
        None => Ok(()),
        Some(Done { line, moved: later }) => {
            *moved = both_moves(moved.take(), later);
            lines.push(line)?;
            Ok(())
        }
    }
}

/// Executes a batch's requests, in order, and gives the executions. It notes how the views moved. Error:
/// want of memory; some of them may have been executed then.
fn execute_each<S: Service>(
    alloc: Global,
    replica: &mut Replica<S>,
    batch: &Batch,
    moved: &mut Option<Move>,
) -> Result<Sequence<Execution>, AllocError>
    requires { moved.old ≡ None }
    ensures state { OnOk result (replica.new ≡ execute_all S.meaning replica.old 0 batch.now) }
    ensures place { replica.new.place ≡ replica.old.place }
    ensures valid { S.valid replica.old.service → S.valid replica.new.service }
    ensures lines { IfOk result (λ lines. lines ≡ lines_of S.meaning replica.old 0 batch.now) }
    ensures moved { IsMoved replica.old.views replica.new.views moved.new }
{
    let mut lines = Sequence::new(alloc);
    for (i, request) in batch.as_slice().iter().enumerate() {
        let done = execute(alloc, replica, i as u16, request.statement())?;
        note(&mut lines, moved, done)?;
    }
    Ok(lines)
}

/// Executes a batch's requests, in order, and gives the executions, and the view that began, if one did.
/// Error: want of memory; some of them may have been executed then, and the views are as they were. A
/// valid state of the service stays valid in any case.
pub fn execute_all<S: Service>(
    alloc: Global,
    replica: &mut Replica<S>,
    batch: &Batch,
) -> Result<Delivered, AllocError>
    ensures state { OnOk result (replica.new ≡ execute_all S.meaning replica.old 0 batch.now) }
    ensures place { replica.new.place ≡ replica.old.place }
    ensures valid { S.valid replica.old.service → S.valid replica.new.service }
    ensures lines { IfOk result (λ done. done.lines ≡ lines_of S.meaning replica.old 0 batch.now) }
    ensures begun { IfOk result (λ done. IsBegun replica.old.views replica.new.views done.begun) }
    ensures err { OnErr result (replica.new.views ≡ replica.old.views) }
{
    let mut moved = None;
    match execute_each(alloc, replica, batch, &mut moved) {
        Ok(lines) => Ok(Delivered {
            lines,
            begun: begun_by(moved),
        }),
        Err(why) => {
            put_back(&mut replica.views, moved);
            Err(why)
        }
    }
}
