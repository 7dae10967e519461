//! The messages that were sent, and the snapshots that were met.
ghost use Rattle.std.specs.Prelude.{◌≡◌, ◌≤◌, ◌++◌, [], ◌∷◌, ℕ, Bool, List, IfOk, OnOk, OnErr, true, false, nat_eq, length, take};
ghost use Rattle.std.specs.Cmp.Lexicographic.{pointwise};
ghost use Rattle.std.specs.HashMap.{get};
ghost use Rattle.std.specs.HashSet.{contains};
ghost use Rattle.std.specs.List.{list_any};
ghost use Rattle.world_rules.specs.Premises.{texts_in, clash, is_forged, collides, texts_met, newly_met, marked_with};
ghost use Rattle.world_rules.specs.declared.message.Sent.{Sent};
ghost use Rattle.world_ledger.specs.declared.stated.Stated.{Stated};
ghost use Rattle.world_ledger.specs.Statements.{same_stated, is_unsent, IsStatedIndex};
ghost use Rattle.world_ledger.specs.Ledgers.{indexed, IsIndexed};

use crate::claims::claims;
use crate::content::batch_met;
use crate::own::own_statements;
use crate::secret::GroupRing;
use crate::stated::{Stated, StatedIndex, is_excused, put_all};
use smart_base::equality::same_bytes;
use smart_base::keys::Digester;
use smart_base::name::{ClientId, MemberId};
use smart_base::party::Party;
use smart_base::sequence::Bytes;
use smart_keys::hash::Sha;
use std::alloc::{AllocError, Global};
use std::collections::{HashMap, HashSet};
use std::marker::Model;
use world_rules::message::{Content, Origin, Sent};

/// Texts by their digests.
type TextIndex = HashMap<[u8; 32], Bytes>;

/// All messages that were sent, and the snapshots that were met, in order. No two different texts of
/// these (of batches and snapshots) have one digest. Two indexes spare a walk over the messages. One says
/// whether a further text has another's digest, the other whether its signer has sent a statement. The
/// second has the statements of the messages that were read: a play that injects nothing reads none.
pub struct Ledger {
    ring: GroupRing,
    sent: Vec<Sent>,
    marked: Vec<Bytes>,
    texts: TextIndex,
    stated: StatedIndex,
    /// The number of the first messages, whose statements are in the index.
    read: usize,
}

impl Drop for Ledger {
    fn drop(self) {
        let Ledger {
            ring: _ring,
            sent: _sent,
            marked: _marked,
            texts: _texts,
            stated: _stated,
            read: _read,
        } = self;
    }
}

impl Model for Ledger {
    ghost use Rattle.std.specs.Prelude.{nat_eq};
    ghost use Rattle.std.specs.Cmp.Lexicographic.{pointwise};
    ghost use Rattle.std.specs.HashMap.{get};
    ghost use Rattle.std.specs.HashSet.{contains};
    ghost use Rattle.world_ledger.specs.Statements.{same_stated};
    ghost use Rattle.world_ledger.specs.Ledgers.{LedgerState, IsIndexed};

    ghost Value = { LedgerState };

    ghost view = { λ l. record { sent = l.sent.items; marked = l.marked.items } };

    ghost invariant = { λ l. IsIndexed (get (pointwise nat_eq) l.texts) (contains same_stated l.stated) l.read l.sent.items l.marked.items };
}

/// Puts the batch of a content, if it has one, under its digest.
fn put_batch(alloc: Global, index: &mut TextIndex, content: &Content) -> Result<(), AllocError>
    ensures ok { OnOk result ((d : List ℕ) → get (pointwise nat_eq) index.new d ≡ indexed (λ d. get (pointwise nat_eq) index.old d) (texts_in content.now) d) }
    ensures err { OnErr result ((d : List ℕ) → get (pointwise nat_eq) index.new d ≡ get (pointwise nat_eq) index.old d) }
{
    if let Some(batch) = batch_met(content) {
        let text = batch.text(alloc)?;
        let digest = Sha::digest(text.as_slice());
        index.insert(digest.get(), Bytes::from_vec(text))?;
    }
    Ok(())
}

/// Puts a copy of a text under its digest.
fn put_text(alloc: Global, index: &mut TextIndex, text: &Bytes) -> Result<(), AllocError>
    ensures ok { OnOk result ((d : List ℕ) → get (pointwise nat_eq) index.new d ≡ indexed (λ d. get (pointwise nat_eq) index.old d) (text.now ∷ []) d) }
    ensures err { OnErr result ((d : List ℕ) → get (pointwise nat_eq) index.new d ≡ get (pointwise nat_eq) index.old d) }
{
    let copy = Bytes::from_slice(alloc, text.as_slice())?;
    let digest = Sha::digest(text.as_slice());
    index.insert(digest.get(), copy)?;
    Ok(())
}

/// Learns the key of who sent a message, whose tags stand in it. Error: want of memory.
fn learn_sender(ring: &mut GroupRing, origin: &Origin) -> Result<(), AllocError>
    ensures { ring.new ≡ ring.old }
{
    match *origin {
        Origin::Node(id) => ring.learn(Party::Member(id)),
        Origin::Client(id) => ring.learn(Party::Client(id)),
        Origin::Script => Ok(()),
    }
}

/// Puts the batch of a message that does not collide into the index of texts. Without memory it stays as
/// it was.
fn put_message(alloc: Global, texts: &mut TextIndex, sent: &Sent) -> Result<(), AllocError>
    ensures ok { OnOk result ((has : Stated → Bool) (read : ℕ) (before : List Sent) (marked : List (List ℕ)) → collides (texts_met before marked) (texts_in sent.now.content) ≡ false →
        IsIndexed (get (pointwise nat_eq) texts.old) has read before marked →
        IsIndexed (get (pointwise nat_eq) texts.new) has read (before ++ sent.now ∷ []) marked) }
    ensures err { OnErr result ((has : Stated → Bool) (read : ℕ) (before : List Sent) (marked : List (List ℕ)) → IsIndexed (get (pointwise nat_eq) texts.old) has read before marked →
        IsIndexed (get (pointwise nat_eq) texts.new) has read before marked) }
{
    put_batch(alloc, texts, &sent.content)?;
    Ok(())
}

/// Puts the statements in a message that its sender has signed into the index of the messages before it.
/// Without memory it stays as it was.
fn read_message(
    alloc: Global,
    ring: &mut GroupRing,
    stated: &mut StatedIndex,
    sent: &Sent,
) -> Result<(), AllocError>
    ensures ok { OnOk result ((before : List Sent) → IsStatedIndex (contains same_stated stated.old) before → IsStatedIndex (contains same_stated stated.new) (before ++ sent.now ∷ [])) }
    ensures err { OnErr result ((before : List Sent) → IsStatedIndex (contains same_stated stated.old) before → IsStatedIndex (contains same_stated stated.new) before) }
{
    learn_sender(ring, &sent.origin)?;
    let own = own_statements(alloc, ring.get(), sent)?;
    stated.reserve(own.len())?;
    put_all(stated, own);
    Ok(())
}

/// Reads the messages after the first ones, of which the index has the statements. Without memory it
/// reads some of them.
fn read_rest(
    alloc: Global,
    ring: &mut GroupRing,
    stated: &mut StatedIndex,
    read: &mut usize,
    sent: &[Sent],
) -> Result<(), AllocError>
    requires few { read.old ≤ length sent.now }
    requires index { IsStatedIndex (contains same_stated stated.old) (take read.old sent.now) }
    ensures all { OnOk result (IsStatedIndex (contains same_stated stated.new) sent.now) }
    ensures few { read.new ≤ length sent.now }
    ensures index { IsStatedIndex (contains same_stated stated.new) (take read.new sent.now) }
{
    let first = *read;
    for i in first..sent.len() {
        read_message(alloc, ring, stated, &sent[i])?;
        *read = i + 1;
    }
    Ok(())
}

/// Whether the signer of a statement, who is not excused, has not sent it, by an index.
fn is_unsent(stated: &StatedIndex, faulty: &[MemberId], rogue: &[ClientId], found: &Stated) -> bool
    ensures { result ≡ is_unsent (contains same_stated stated.now) faulty.now rogue.now found.now }
{
    !is_excused(faulty, rogue, found.signer()) && !stated.contains(found)
}

/// Whether this holds of one of several statements.
fn has_unsent(
    stated: &StatedIndex,
    faulty: &[MemberId],
    rogue: &[ClientId],
    found: &[Stated],
) -> bool
    ensures { result ≡ list_any (is_unsent (contains same_stated stated.now) faulty.now rogue.now) found.now }
{
    found
        .iter()
        .any(|one| is_unsent(stated, faulty, rogue, one))
}

/// Puts a snapshot that is new into the index of texts. Without memory it stays as it was.
fn put_snapshot(alloc: Global, texts: &mut TextIndex, snapshot: &Bytes) -> Result<(), AllocError>
    ensures ok { OnOk result ((has : Stated → Bool) (read : ℕ) (sent : List Sent) (marked : List (List ℕ)) → newly_met (texts_met sent marked) snapshot.now ≡ true →
        IsIndexed (get (pointwise nat_eq) texts.old) has read sent marked →
        IsIndexed (get (pointwise nat_eq) texts.new) has read sent (marked ++ snapshot.now ∷ [])) }
    ensures err { OnErr result ((has : Stated → Bool) (read : ℕ) (sent : List Sent) (marked : List (List ℕ)) → IsIndexed (get (pointwise nat_eq) texts.old) has read sent marked →
        IsIndexed (get (pointwise nat_eq) texts.new) has read sent marked) }
{
    put_text(alloc, texts, snapshot)?;
    Ok(())
}

impl Ledger {
    pub fn new(alloc: Global) -> Result<Self, AllocError>
        ensures { IfOk result (λ ledger. ledger ≡ record { sent = []; marked = [] }) }
    {
        Ok(Ledger {
            ring: GroupRing::new(alloc)?,
            sent: Vec::new(alloc),
            marked: Vec::new(alloc),
            texts: HashMap::new(alloc),
            stated: HashSet::new(alloc),
            read: 0,
        })
    }

    /// The messages, in the order of their numbers.
    pub fn as_slice(&self) -> &[Sent]
        ensures { result.now ≡ self.now.sent }
    {
        self.sent.as_slice()
    }

    /// Whether a text clashes with one that was met.
    pub fn clashes(&self, text: &[u8]) -> bool
        ensures { result ≡ list_any (clash text.now) (texts_met self.now.sent self.now.marked) }
    {
        let digest = Sha::digest(text).get();
        match self.texts.get(&digest) {
            None => false,
            Some(known) => !same_bytes(text, known.as_slice()),
        }
    }

    /// Whether a content brings a text that clashes with one that was met.
    #[tactic(auto, unfolding(world_rules::specs::Premises::collides))]
    pub fn collides(&self, alloc: Global, content: &Content) -> Result<bool, AllocError>
        ensures { IfOk result (λ c. c ≡ collides (texts_met self.now.sent self.now.marked) (texts_in content.now)) }
    {
        match batch_met(content) {
            None => Ok(false),
            Some(batch) => {
                let text = batch.text(alloc)?;
                Ok(self.clashes(text.as_slice()))
            }
        }
    }

    /// Whether a content has a statement that its signer, who is neither declared faulty nor rogue,
    /// has not sent. The messages that were sent since the last such question are read first. The ledger
    /// is unchanged.
    pub fn is_forged(
        &mut self,
        alloc: Global,
        faulty: &[MemberId],
        rogue: &[ClientId],
        content: &Content,
    ) -> Result<bool, AllocError>
        ensures is { IfOk result (λ forged. forged ≡ is_forged faulty.now rogue.now self.old.sent content.now) }
        ensures same { self.new ≡ self.old }
    {
        read_rest(
            alloc,
            &mut self.ring,
            &mut self.stated,
            &mut self.read,
            self.sent.as_slice(),
        )?;
        let found = claims(alloc, self.ring.get(), content)?;
        Ok(has_unsent(&self.stated, faulty, rogue, found.as_slice()))
    }

    /// Adds a message that does not collide. Without memory the ledger is unchanged.
    pub fn push(&mut self, alloc: Global, sent: Sent) -> Result<(), AllocError>
        requires { collides (texts_met self.old.sent self.old.marked) (texts_in sent.content) ≡ false }
        ensures ok { OnOk result (self.new ≡ record self.old { sent = self.old.sent ++ sent ∷ [] }) }
        ensures err { OnErr result (self.new ≡ self.old) }
    {
        self.sent.reserve(1)?;
        put_message(alloc, &mut self.texts, &sent)?;
        self.sent.push(sent)?;
        Ok(())
    }

    /// Whether a text is new: none that was met has its digest.
    fn is_new(&self, text: &[u8]) -> bool
        ensures { result ≡ newly_met (texts_met self.now.sent self.now.marked) text.now }
    {
        let digest = Sha::digest(text).get();
        match self.texts.get(&digest) {
            None => true,
            Some(_) => false,
        }
    }

    /// Adds a snapshot that is new. Without memory the ledger is unchanged.
    fn add(&mut self, alloc: Global, snapshot: Bytes) -> Result<(), AllocError>
        requires { newly_met (texts_met self.old.sent self.old.marked) snapshot ≡ true }
        ensures ok { OnOk result (self.new ≡ record self.old { marked = self.old.marked ++ snapshot ∷ [] }) }
        ensures err { OnErr result (self.new ≡ self.old) }
    {
        self.marked.reserve(1)?;
        put_snapshot(alloc, &mut self.texts, &snapshot)?;
        self.marked.push(snapshot)?;
        Ok(())
    }

    /// Meets a snapshot that a node marked: it is added, if it is new. Without memory the ledger is
    /// unchanged.
    #[tactic(auto, using(crate::proofs::LedgerLaws::met_known, crate::proofs::LedgerLaws::met_new))]
    pub fn meet(&mut self, alloc: Global, snapshot: Bytes) -> Result<(), AllocError>
        ensures ok { OnOk result (self.new ≡ record self.old { marked = marked_with self.old.sent self.old.marked snapshot }) }
        ensures err { OnErr result (self.new ≡ self.old) }
    {
        if !self.is_new(snapshot.as_slice()) {
            return Ok(());
        }
        self.add(alloc, snapshot)?;
        Ok(())
    }
}
