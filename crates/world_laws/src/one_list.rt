//! One list of batches, in every play.
ghost use Rattle.std.specs.Prelude.{◌≡◌, ◌<◌, ℕ, List, length, take, filter, map};
ghost use Rattle.replica_rules.specs.Replicas.{view_at};
ghost use Rattle.store_laws.specs.Restored.{Images};
ghost use Rattle.world_rules.specs.Worlds.{World};
ghost use Rattle.world_rules.specs.declared.line.Header.{Header};
ghost use Rattle.world_rules.specs.declared.line.Line.{Line};
ghost use Rattle.world_laws.specs.Promises.{AddsNone, IsHeader, IsKept, MayBeLeft, OneListThroughout, restores_place, world_at};

use smart_service::service::Service;

/// One list of batches holds after each line of every script, for any group (state machine
/// replication).
///
/// A script may inject anything in the names of faulty members, up to f of each view of the list, of
/// faulty nodes that are no members, and of rogue clients. It may add nodes. It may crash any members, and their
/// devices may then hold whatever a crash can leave.
///
/// *Delivery.* Each node has delivered a front of the list, also a faulty member's, a crashed one's
/// and one of no member. Its service, its table of clients and its views are the state after that
/// front, also where it took over a replica. Since then, or since this life began, its steps delivered
/// one batch at each place after that one, in order. Each batch that a step delivered, in any life, is
/// the list's at its place. A decided batch that waits for delivery is the list's at the next place.
///
/// *Restart.* Whatever a crash now leaves of a member's devices, they restore a cut of the diary that
/// this crash makes. It is the cut at the place of their checkpoint, which that diary has made, no more
/// and no less. That diary has everything that became firm there, and then what the crash brings back.
/// Neither the checkpoint nor a restored entry is damaged, at a crash now or after one that happened.
/// The restored replica is the state after a front of the list, at the last place that this diary has
/// made. A crash may leave each device as it was at its last sync, or as it reads now. A crash line
/// without patches never ends a play.
///
/// *Replies.* A right reply is the service's answer at its place and index, to the request of its
/// client and number there. Its client asked that request, unless the client is rogue. The place is
/// later than the one that the request states. The request is executed at no other place, and the
/// reply states the view in force there. Each reply that a node holds is right. Each reply with a
/// correct member's tag is right, in whichever message it was sent.
///
/// *Views.* Each view that a node tells clients is one of the list's, and so is each that is stated with a
/// correct member's tag. A client knows such views alone, and from the beginning the header's.
///
/// *Acceptance.* Each reply that a client accepted is right. The request at its place is the one that
/// the client asked; for a rogue client it may be another request of that number. A quorum of the
/// members of the view that it states has given the reply. Its place is kept. Take the view in force there: whatever
/// crashes leave of devices, more than f correct members of it restore that place or a later one. The
/// request states no earlier place than any that its client knew before it sent the request. What a
/// client knows the transcript tells: places of accepted replies, and learned ones.
///
/// *The list and the transcript.* The view and the period stay the header's. Its members have one
/// node each, and a line has added each other node. The list only grows. Each line of an accepted reply
/// names where the list executes that client's request of that number, and the answer there. The
/// transcript tells each accepted reply, once and in order, and no other. It tells each batch that a
/// step of a node delivered, in all the node's lives and in order, and no other. A restart delivers
/// decided batches again, and no line tells that.
///
/// *Evidence.* What a node or a client has sent is its own, except a client's request that a node
/// passed on. A node's votes, replies and reports rest on entries that became firm there. What is for
/// members went to one of them, or to those of the view in force behind a place of the list, at which
/// the node stood. It names no later view. No mark and no ask for state names a place past that one. What
/// is for all clients went to such as have asked. After each line each node's diary is lawful, also one of no member. It shows what a
/// correct node has stated.
///
/// *Declared.* The faulty members and the rogue clients are those that a line declared so. There is one
/// client for each number from 0 to 1,024. What was sent, what was accepted and each diary only grow. A
/// node goes on from the place that the last line of its restart or installation tells. After a line that
/// restarts a crashed member, its node runs from what its devices hold. A client that a line tells of a
/// place knows that place from then on. A delivery has executed as many requests as the list executes
/// there.
pub fn one_list_throughout<S: Service>()
    ensures { (header : Header) (ls : List Line) → IsHeader header → OneListThroughout S.meaning header ls }
{}

/// What that promise says where no line has added a node: the nodes are those of the header's
/// members, in order.
///
/// A kept place is one that more than f correct nodes restore, or a later one, whatever crashes leave
/// of their devices. This f is that of the view in force at the place.
pub fn one_list_without_new_nodes<S: Service>()
    ensures members { (header : Header) (ls : List Line) (k : ℕ) → OneListThroughout S.meaning header ls → AddsNone (take k ls) →
        map (λ h. h.node.id) (world_at S.meaning header ls k).hosts ≡ header.view.members }
    ensures kept { (w : World S) (place : ℕ) (left : ℕ → Images) → IsKept S.meaning w place → MayBeLeft w left →
        (view_at w.view w.chosen place).f < length (filter (restores_place S.meaning w left place) w.hosts) }
{}
