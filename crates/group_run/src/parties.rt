//! What the parties of a group have lived, gathered once they are taken apart.
ghost use Rattle.std.specs.Prelude.{◌≡◌, ◌<◌, ◌++◌, ◌∷◌, [], ℕ, map, slice_index_or, vec_len, true, ◌&&◌, IfOk, OnOk, IfSome, Some};
ghost use Rattle.std.specs.List.{All};
ghost use Rattle.group_parties.specs.Gathered.{recorded_of, trails_in};

use audit_rules::recorded::Recorded;
use disk_model::disk::Disk;
use group_ends::inbox::Inbox;
use group_parties::crew::Headed;
use group_parties::ending::{ClientLeft, Lived, MemberEnd};
use group_wires::row::Row;
use smart_base::sequence::{Bytes, Sequence};
use smart_io::stream::Sink;
use std::alloc::{AllocError, Global};
use trail::opening::TrailOpening;

/// What each party of a group has lived.
#[derive(Drop)]
pub struct Lives {
    pub client: Lived,
    pub members: Vec<Lived>,
}

/// The trails of a group, that of the client first, and the ends of its links in the order of its parties.
#[derive(Drop)]
pub struct Trails {
    pub recorded: Vec<Recorded>,
    pub rows: Vec<Row>,
    pub inboxes: Vec<Inbox>,
    /// Whether each trail has ended, and no call has failed.
    pub whole: bool,
}

/// Takes what the members have lived, if each has. Error: want of memory.
fn take_lives<D: Disk, O: Sink>(
    alloc: Global,
    members: &mut Vec<MemberEnd<D, O>>,
) -> Result<Option<Vec<Lived>>, AllocError>
    ensures many { vec_len members.new ≡ vec_len members.old }
    ensures same { (i : ℕ) (d : _) → i < vec_len members.old → let old = slice_index_or members.old.items i d in let new = slice_index_or members.new.items i d in (new.member ≡ old.member) × ((new.sink ≡ old.sink) × ((new.failed ≡ old.failed) × ((new.store ≡ old.store) × (new.worn ≡ old.worn)))) }
    ensures lives { IfOk result (λ found. IfSome found (λ lives. map (λ (l : _). Some l) lives.items ≡ map (λ m. m.lived) members.old.items)) }
{
    let mut lives = Vec::new(alloc);
    for index in 0..members.len() {
        match members[index].lived.take() {
            Some(lived) => lives.push(lived)?,
            None => return Ok(None),
        }
    }
    Ok(Some(lives))
}

/// Takes what the parties have lived, if each has. Error: want of memory.
pub fn lives_of<D: Disk, O: Sink>(
    alloc: Global,
    members: &mut Vec<MemberEnd<D, O>>,
    client: &mut ClientLeft<O>,
) -> Result<Option<Lives>, AllocError>
    ensures many { vec_len members.new ≡ vec_len members.old }
    ensures same { (i : ℕ) (d : _) → i < vec_len members.old → let old = slice_index_or members.old.items i d in let new = slice_index_or members.new.items i d in (new.member ≡ old.member) × ((new.sink ≡ old.sink) × ((new.failed ≡ old.failed) × ((new.store ≡ old.store) × (new.worn ≡ old.worn)))) }
    ensures client { (client.new.sink ≡ client.old.sink) × ((client.new.failed ≡ client.old.failed) × (client.new.polls ≡ client.old.polls)) }
    ensures lives { IfOk result (λ found. IfSome found (λ lives. (client.old.lived ≡ Some lives.client) × (map (λ (l : _). Some l) lives.members.items ≡ map (λ m. m.lived) members.old.items))) }
{
    let Some(lives) = take_lives(alloc, members)? else {
        return Ok(None);
    };
    match client.lived.take() {
        Some(client) => Ok(Some(Lives {
            client,
            members: lives,
        })),
        None => Ok(None),
    }
}

/// Puts the trail of a party and the ends of its links behind those of others. Error: want of memory.
fn add_party(
    made: &mut Trails,
    head: TrailOpening,
    entries: Sequence<Bytes>,
    lived: Lived,
) -> Result<(), AllocError>
    ensures trail { OnOk result (made.new.recorded.items ≡ made.old.recorded.items ++ recorded_of head entries lived ∷ []) }
    ensures row { OnOk result (made.new.rows.items ≡ made.old.rows.items ++ lived.row ∷ []) }
    ensures inbox { OnOk result (made.new.inboxes.items ≡ made.old.inboxes.items ++ lived.inbox ∷ []) }
    ensures whole { OnOk result (made.new.whole ≡ made.old.whole && lived.whole) }
{
    let Lived {
        events,
        whole,
        row,
        inbox,
    } = lived;
    made.whole = made.whole && whole;
    made.rows.push(row)?;
    made.inboxes.push(inbox)?;
    made.recorded.push(Recorded {
        opening: head,
        entries,
        events,
    })?;
    Ok(())
}

/// The trails of a group, and the ends of its links. Error: want of memory.
pub fn trails_of(
    alloc: Global,
    head: TrailOpening,
    heads: Vec<Headed>,
    lives: Lives,
) -> Result<Trails, AllocError>
    requires { vec_len heads ≡ vec_len lives.members }
    ensures trails { IfOk result (λ t. t.recorded.items ≡ recorded_of head [] lives.client ∷ trails_in heads.items lives.members.items) }
    ensures whole { IfOk result (λ t. t.whole ≡ true → (lives.client.whole ≡ true) × All (λ l. l.whole ≡ true) lives.members.items) }
    ensures rows { IfOk result (λ t. t.rows.items ≡ map (λ l. l.row) lives.members.items ++ lives.client.row ∷ []) }
    ensures inboxes { IfOk result (λ t. t.inboxes.items ≡ map (λ l. l.inbox) lives.members.items ++ lives.client.inbox ∷ []) }
{
    let Lives { client, members } = lives;
    let mut made = Trails {
        recorded: Vec::new(alloc),
        rows: Vec::new(alloc),
        inboxes: Vec::new(alloc),
        whole: true,
    };
    add_party(&mut made, head, Sequence::new(alloc), client)?;
    let mut heads = heads;
    let mut members = members;
    while let Some(lived) = members.pop() {
        let Some(headed) = heads.pop() else {
            unreachable!()
        };
        let Headed { head, entries } = headed;
        add_party(&mut made, head, entries, lived)?;
    }
    made.rows.reverse();
    made.inboxes.reverse();
    made.recorded.reverse();
    // The client, which was put first, comes first again.
    made.recorded.rotate_right(1);
    Ok(made)
}
