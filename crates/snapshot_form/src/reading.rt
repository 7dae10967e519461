//! Reading snapshots.
ghost use Rattle.std.specs.Prelude.{◌≡◌, ◌<◌, ◌^◌, true, length, Some, IfOk};
ghost use Rattle.smart_base.specs.Cuts.{IsBytes, Gives, GivesAll, Takes, times_at};
ghost use Rattle.smart_base.specs.ViewBytes.{view_at};
ghost use Rattle.smart_service.specs.Services.{Restores};
ghost use Rattle.smart_service.specs.Tables.{Ascends};
ghost use Rattle.smart_service.specs.declared.replica.Replica.{Replica};
ghost use Rattle.snapshot_form.specs.Replicas.{follow, is_next_view, is_first_view, views_follow, FitsReplica};
ghost use Rattle.snapshot_form.specs.Snapshots.{place_at, client_at, index_at, line_at, views_at, lines_at, parts_at, is_next_line, lines_above, is_first_line, lines_follow, is_tied, replica_of, read_parts, restored, snapshot_text};

use smart_base::cursor::Cursor;
use smart_base::fault::{ReadError, Unread};
use smart_base::field::{take_count, take_items, take_payload};
use smart_base::limits::{BATCH_REQUESTS, LAST_CLIENT, VIEWS};
use smart_base::name::ClientId;
use smart_base::number::{Place, ViewNo};
use smart_base::sequence::Sequence;
use smart_base::view::{View, Views};
use smart_base::view_bytes::read_view;
use smart_service::fault::RestoreError;
use smart_service::replica::Replica;
use smart_service::service::Service;
use smart_service::table::{ClientTable, Execution, TableLine};
use std::alloc::Global;
use std::marker::Model;

/// Bytes that stand in others.
#[derive(Drop)]
struct Field<'a> {
    bytes: &'a [u8],
}

impl<'a> Model for Field<'a> {
    ghost use Rattle.std.specs.Prelude.{List, ℕ};
    ghost use Rattle.smart_base.specs.Cuts.{IsBytes};

    ghost Value = { List ℕ };

    ghost view = { λ f. f.bytes.now };

    ghost invariant = { λ f. IsBytes f.bytes.now };
}

impl<'a> Field<'a> {
    fn new(cut: &Cursor<'a>) -> Field<'a>
        ensures { result ≡ cut.now.left }
    {
        Field { bytes: cut.rest() }
    }

    fn as_slice(&self) -> &'a [u8]
        ensures value { result.now ≡ self.now }
        ensures bytes { IsBytes result.now }
    {
        self.bytes
    }
}

/// The parts of a replica as they stand in a snapshot, the service's still in bytes.
pub struct Parts<'a> {
    place: Place,
    views: Sequence<View>,
    lines: Sequence<TableLine>,
    service: Field<'a>,
}

/// Let go by one call, so that no function that lets one go carries the whole of it.
impl<'a> Drop for Parts<'a> {
    fn drop(self) {
        let Parts {
            place: _,
            views: _,
            lines: _,
            service: _,
        } = self;
    }
}

#[tactic(auto, unfolding(smart_base::specs::Cuts::ranged))]
fn take_place(cut: &mut Cursor<'_>) -> Result<u64, Unread>
    ensures exact { Takes result cut.new (place_at cut.old) }
    ensures small { IfOk result (λ n. n < 2 ^ 63) }
{
    let at = cut.at();
    let found = cut.take_u64()?;
    if found < 1 << 63 {
        Ok(found)
    } else {
        Err(Unread { at })
    }
}

#[tactic(auto, unfolding(smart_base::specs::Cuts::ranged))]
fn take_client(cut: &mut Cursor<'_>) -> Result<u16, Unread>
    ensures { Takes result cut.new (client_at cut.old) }
{
    let at = cut.at();
    let found = cut.take_u16()?;
    if found <= LAST_CLIENT {
        Ok(found)
    } else {
        Err(Unread { at })
    }
}

#[tactic(auto, unfolding(smart_base::specs::Cuts::ranged))]
fn take_index(cut: &mut Cursor<'_>) -> Result<u16, Unread>
    ensures { Takes result cut.new (index_at cut.old) }
{
    let at = cut.at();
    let found = cut.take_u16()?;
    if found < BATCH_REQUESTS {
        Ok(found)
    } else {
        Err(Unread { at })
    }
}

#[tactic(auto, unfolding(crate::specs::Snapshots::line_at))]
fn take_line(alloc: Global, cut: &mut Cursor<'_>) -> Result<TableLine, ReadError>
    ensures { Gives result cut.new (line_at cut.old) }
{
    let client = ClientId::new(take_client(cut)?);
    let seq = take_count(cut)?;
    let place = Place::new(take_count(cut)?);
    let index = take_index(cut)?;
    let view = ViewNo::new(cut.take_u32()?);
    let reply = take_payload(alloc, cut)?;
    let last = Execution {
        client,
        seq,
        place,
        index,
        view,
        reply,
    };
    Ok(TableLine { last })
}

fn take_each_view(
    alloc: Global,
    count: u16,
    cut: &mut Cursor<'_>,
) -> Result<Sequence<View>, ReadError>
    ensures { Gives result cut.new (times_at view_at count cut.old) }
{
    let mut list = Sequence::new(alloc);
    for turn in 0..count {
        let view = read_view(alloc, cut)?;
        list.push(view)?;
    }
    Ok(list)
}

fn take_each_line(
    alloc: Global,
    count: u16,
    cut: &mut Cursor<'_>,
) -> Result<Sequence<TableLine>, ReadError>
    ensures { Gives result cut.new (times_at line_at count cut.old) }
{
    let mut list = Sequence::new(alloc);
    for turn in 0..count {
        let line = take_line(alloc, cut)?;
        list.push(line)?;
    }
    Ok(list)
}

#[tactic(auto, unfolding(crate::specs::Snapshots::views_at))]
fn take_views(alloc: Global, cut: &mut Cursor<'_>) -> Result<Sequence<View>, ReadError>
    ensures { Gives result cut.new (views_at cut.old) }
{
    let count = take_items(cut, VIEWS)?;
    take_each_view(alloc, count, cut)
}

#[tactic(auto, unfolding(crate::specs::Snapshots::lines_at))]
fn take_lines(alloc: Global, cut: &mut Cursor<'_>) -> Result<Sequence<TableLine>, ReadError>
    ensures { Gives result cut.new (lines_at cut.old) }
{
    let count = cut.take_u16()?;
    take_each_line(alloc, count, cut)
}

#[tactic(auto, unfolding(crate::specs::Snapshots::parts_at, smart_base::specs::Cuts::contents))]
fn take_parts<'a>(alloc: Global, cut: &mut Cursor<'a>) -> Result<Parts<'a>, ReadError>
    ensures { Gives result cut.new (parts_at cut.old) }
{
    let place = Place::new(take_place(cut)?);
    let views = take_views(alloc, cut)?;
    let lines = take_lines(alloc, cut)?;
    let field = cut.take_bytes()?;
    let service = Field::new(&field);
    Ok(Parts {
        place,
        views,
        lines,
        service,
    })
}

/// The parts that all of the bytes are.
#[tactic(auto, unfolding(smart_base::specs::Cuts::whole))]
fn read_parts<'a>(alloc: Global, bytes: &'a [u8]) -> Result<Parts<'a>, ReadError>
    ensures { GivesAll result (read_parts bytes.now) }
{
    let mut cut = Cursor::new(bytes);
    let parts = take_parts(alloc, &mut cut)?;
    if !cut.is_done() {
        return Err(ReadError::Unread { at: cut.at() });
    }
    Ok(parts)
}

fn is_first_view(view: &View) -> bool
    ensures { result ≡ is_first_view view.now }
{
    view.number().get() == 0 && view.start() == 1
}

/// Whether a view follows one of this number and start, and does not start past the place that
/// comes next.
fn is_next_view(place: Place, number: u32, start: u64, view: &View) -> bool
    ensures { result ≡ is_next_view place number start view.now }
{
    view.number().get() as u64 == number as u64 + 1
        && start < view.start()
        && view.start() <= place.get() + 1
}

/// Whether views are numbered from 0 on, and each starts behind the one before, the first from place
/// 1.
fn views_follow(place: Place, views: &[View]) -> bool
    ensures { result ≡ views_follow place views.now }
{
    let Some((first, others)) = views.split_first() else {
        return false;
    };
    if !is_first_view(first) {
        return false;
    }
    let mut number = 0;
    let mut start = 1;
    for view in others {
        if !is_next_view(place, number, start, view) {
            return false;
        }
        number = view.number().get();
        start = view.start();
    }
    true
}

fn is_first_line(place: Place, views: usize, line: &TableLine) -> bool
    ensures { result ≡ is_first_line place views line.now }
{
    line.last.place <= place && (line.last.view.get() as usize) < views
}

fn is_next_line(place: Place, views: usize, client: ClientId, line: &TableLine) -> bool
    ensures { result ≡ is_next_line place views client line.now }
{
    client < line.last.client && line.last.place <= place && (line.last.view.get() as usize) < views
}

/// Whether lines ascend by client, with places up to this one and views below so many.
fn lines_follow(place: Place, views: usize, lines: &[TableLine]) -> bool
    ensures { result ≡ lines_follow place views lines.now }
{
    let Some((first, others)) = lines.split_first() else {
        return true;
    };
    if !is_first_line(place, views, first) {
        return false;
    }
    let mut last = first.last.client;
    for line in others {
        if !is_next_line(place, views, last, line) {
            return false;
        }
        last = line.last.client;
    }
    true
}

#[tactic(auto, unfolding(crate::specs::Snapshots::is_tied))]
fn is_tied(parts: &Parts<'_>) -> bool
    ensures { result ≡ is_tied parts.now }
{
    let views = parts.views.as_slice();
    views_follow(parts.place, views)
        && lines_follow(parts.place, views.len(), parts.lines.as_slice())
}

/// Whether parts suit each other. Then they make a table and a list of views.
fn suit(parts: &Parts<'_>) -> bool
    ensures tied { result ≡ is_tied parts.now }
    ensures order { result ≡ true → Ascends parts.now.lines }
    ensures some { result ≡ true → 0 < length parts.now.views }
{
    is_tied(parts)
}

impl<'a> Parts<'a> {
    /// The replica of these parts, if they are those of one.
    fn into_replica<S: Service>(self, alloc: Global) -> Result<Replica<S>, RestoreError>
        ensures { Restores result (replica_of S.meaning self.entry) }
    {
        if !suit(&self) {
            return Err(RestoreError::BadSnapshot);
        }
        let Parts {
            place,
            views,
            lines,
            service,
        } = self;
        let service = S::restore(alloc, service.as_slice())?;
        Ok(Replica {
            service,
            table: ClientTable::from_vec(lines.into_vec()),
            views: Views::from_vec(views.into_vec()),
            place,
        })
    }
}

fn restored<S: Service>(alloc: Global, bytes: &[u8]) -> Result<Replica<S>, RestoreError>
    ensures { Restores result (restored S.meaning bytes.now) }
{
    match read_parts(alloc, bytes) {
        Ok(parts) => parts.into_replica(alloc),
        Err(ReadError::NoMemory) => Err(RestoreError::NoMemory),
        Err(ReadError::Unread { .. }) => Err(RestoreError::BadSnapshot),
    }
}

/// The replica whose snapshot the bytes are, if they are one.
pub fn from_bytes<S: Service>(alloc: Global, bytes: &[u8]) -> Result<Replica<S>, RestoreError>
    // What is restored has these bytes as its snapshot.
    ensures found { IfOk result (λ r. FitsReplica S.valid r × (bytes.now ≡ snapshot_text S.meaning r)) }
    // A replica whose snapshot the bytes are is restored, unless memory runs out.
    ensures only { (r : Replica S) → FitsReplica S.valid r → bytes.now ≡ snapshot_text S.meaning r → Restores result (Some r) }
    // So bytes are refused that are no replica's snapshot.
    ensures exact { Restores result (restored S.meaning bytes.now) }
{
    restored(alloc, bytes)
}
