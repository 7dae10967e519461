//! Signed statements: a statement, its bytes, and the tag over them.
ghost use Rattle.std.specs.Prelude.{◌≡◌, ◌+◌, ◌++◌, ◌<◌, ◌^◌, ◌⊎◌, ℕ, List, length, OnOk, OnErr, IfOk, IfErr};
ghost use Rattle.smart_base.specs.declared.keys.SignRefused.TheVariants.{NoMemory};
ghost use Rattle.smart_base.specs.Cuts.{Gives, Takes};
ghost use Rattle.smart_base.specs.Spelling.{Law, Extends};
ghost use Rattle.smart_statements.specs.Forms.{Form, party_of};
ghost use Rattle.smart_statements.specs.Reading.{signed_at, signer_at};
ghost use Rattle.smart_statements.specs.Spelling.{signed};

use smart_base::bytes::Tag;
use smart_base::cursor::Cursor;
use smart_base::duplicate::Duplicate;
use smart_base::fault::{ReadError, Unread};
use smart_base::field::{copied, put_short, put_text, put_u8, put_u16, take_kind, take_tag};
use smart_base::keys::{SignRefused, Signer, Verifier};
use smart_base::name::{ClientId, MemberId};
use smart_base::party::Party;
use smart_base::sequence::Bytes;
use std::alloc::{AllocError, Global};
use std::marker::Model;

/// The room with which a statement's bytes begin: more than a vote's are.
const ROOM: usize = 64;

/// The kind of signers that are members.
pub const MEMBER: u8 = 1;

/// The kind of signers that are clients.
pub const CLIENT: u8 = 2;

/// A kind of statement.
pub trait Statement: Duplicate {
    ghost form: { Form Self };

    // Which statements of this signer have a spelling.
    ghost fits: { ℕ → Self → Type 0 };

    /// The kind of its signers.
    fn kind() -> u8
        ensures { result ≡ Form.kind form };

    /// Reads a statement for its signer's number. Errors: a field that is none; want of memory.
    fn read(alloc: Global, signer: u16, cut: &mut Cursor<'_>) -> Result<Self, ReadError>
        ensures { Gives result cut.new (Form.read form signer cut.old) };

    /// Adds the bytes of the statement. Error: want of memory, also for 2^32 bytes or more.
    fn put(&self, out: &mut Vec<u8>) -> Result<(), AllocError>
        ensures text { OnOk result (out.new.items ≡ out.old.items ++ Form.spell form self.now) }
        ensures small { OnOk result (length (Form.spell form self.now) < 2 ^ 32) }
        ensures err { OnErr result (Extends out.old.items out.new.items) };

    // What is read is what is spelled.
    ghost agree: { (signer : ℕ) → Law (fits signer) (Form.spell form) (Form.read form signer) };
}

/// Refuses a statement's bytes after the first `before` ones if they are 2^32 or more, as their
/// length needs more than four bytes. The answer is want of memory.
pub fn within_limit(out: &Vec<u8>, before: usize) -> Result<(), AllocError>
    ensures { OnOk result (length out.now.items < before + 2 ^ 32) }
{
    if out.len().saturating_sub(before) < 1 << 32 {
        Ok(())
    } else {
        Err(AllocError)
    }
}

/// A selection of the statements of a kind.
pub trait Selection<S: Statement> {
    ghost form: { Self → Form S };

    // Which of them have a spelling.
    ghost fits: { Self → ℕ → S → Type 0 };

    /// Reads a selected statement for its signer's number. Errors: a field that is none; want of
    /// memory.
    fn read(&self, alloc: Global, signer: u16, cut: &mut Cursor<'_>) -> Result<S, ReadError>
        ensures { Gives result cut.new (Form.read (form self.now) signer cut.old) };

    // They have the kind of signers that all have.
    ghost of_kind: { (which : Self) → Form.kind (form which) ≡ Form.kind S.form };

    // What is read is what is spelled.
    ghost agree: { (which : Self) (signer : ℕ) → Law (fits which signer) (Form.spell S.form) (Form.read (form which) signer) };
}

/// All statements of a kind.
#[derive(Drop)]
pub struct Every;

impl<S: Statement> Selection<S> for Every {
    ghost use Rattle.std.specs.Prelude.{refl};

    ghost form = { λ which. S.form };

    ghost fits = { λ which. S.fits };

    ghost of_kind = { λ which. refl };

    ghost agree = { λ which. S.agree };

    fn read(&self, alloc: Global, signer: u16, cut: &mut Cursor<'_>) -> Result<S, ReadError> {
        S::read(alloc, signer, cut)
    }
}

/// A signed statement: its signer's number, the statement, and the tag over its bytes. The bytes are
/// kept, so a check of the tag encodes nothing.
pub struct Signed<S: Statement> {
    signer: u16,
    statement: S,
    kept: Bytes,
    tag: Tag,
}

/// Let go by one call, so that no function that lets one go carries the whole of it.
impl<S: Statement> Drop for Signed<S> {
    fn drop(self) {
        let Signed {
            signer: _,
            statement: _,
            kept: _,
            tag: _,
        } = self;
    }
}

impl<S: Statement> Model for Signed<S> {
    ghost use Rattle.std.specs.Prelude.{◌≡◌, ◌<◌, ◌^◌, length};
    ghost use Rattle.smart_statements.specs.Forms.{Form, SignedBy};

    ghost Value = { SignedBy S };

    ghost view = { λ s. record { signer = s.signer; statement = s.statement; tag = s.tag } };

    // The kept bytes are the statement's spelling.
    ghost invariant = { λ s. (s.kept ≡ Form.spell S.form s.statement) × (length s.kept < 2 ^ 32) };
}

/// The party of a kind of signer and a number.
fn party_of(kind: u8, number: u16) -> Party
    ensures { result ≡ party_of kind number }
{
    if kind == MEMBER {
        Party::Member(MemberId::new(number))
    } else {
        Party::Client(ClientId::new(number))
    }
}

/// Reads a signer's number; a member's is at least 1.
#[tactic(auto, unfolding(smart_base::specs::Cuts::ranged))]
fn take_signer(cut: &mut Cursor<'_>, kind: u8) -> Result<u16, Unread>
    ensures { Takes result cut.new (signer_at kind cut.old) }
{
    let at = cut.at();
    let found = cut.take_u16()?;
    if kind == MEMBER && found == 0 {
        Err(Unread { at })
    } else {
        Ok(found)
    }
}

impl<S: Statement> Signed<S> {
    /// Signs a statement. Errors: want of memory; the key refuses. What the key makes later it could
    /// have made before.
    pub fn seal<K: Signer>(
        alloc: Global,
        key: &mut K,
        signer: u16,
        statement: S,
    ) -> Result<Signed<S>, SignRefused>
        ensures signer { IfOk result (λ s. s.signer ≡ signer) }
        ensures statement { IfOk result (λ s. s.statement ≡ statement) }
        ensures tag { IfOk result (λ s. K.makes key.old (Form.spell S.form statement) s.tag) }
        ensures refused { IfErr result (λ why. (why ≡ NoMemory) ⊎ K.refuses key.old why) }
        ensures later { (text tag : List ℕ) → K.makes key.new text tag → K.makes key.old text tag }
    {
        let mut kept = Vec::with_capacity(alloc, ROOM)?;
        statement.put(&mut kept)?;
        let tag = key.sign(alloc, kept.as_slice())?;
        Ok(Signed {
            signer,
            statement,
            kept: Bytes::from_vec(kept),
            tag,
        })
    }

    /// The number of the member or client that signed.
    pub fn signer(&self) -> u16
        ensures { result ≡ self.now.signer }
    {
        self.signer
    }

    /// The party that signed.
    pub fn party(&self) -> Party
        ensures { result ≡ party_of (Form.kind S.form) self.now.signer }
    {
        party_of(S::kind(), self.signer)
    }

    pub fn statement(&self) -> &S
        ensures { result.now ≡ self.now.statement }
    {
        &self.statement
    }

    pub fn tag(&self) -> &Tag
        ensures { result.now ≡ self.now.tag }
    {
        &self.tag
    }

    /// The bytes of the statement, over which the tag is.
    pub fn bytes(&self) -> &[u8]
        ensures { result.now ≡ Form.spell S.form self.now.statement }
    {
        self.kept.as_slice()
    }

    /// Whether the tag is the one that the signer makes.
    pub fn verifies<V: Verifier>(&self, keys: &V) -> bool
        ensures { result ≡ V.verified keys.now (party_of (Form.kind S.form) self.now.signer) (Form.spell S.form self.now.statement) self.now.tag }
    {
        keys.verifies(
            party_of(S::kind(), self.signer),
            self.kept.as_slice(),
            self.tag.as_slice(),
        )
    }

    /// The number of bytes that `put` adds. It needs no memory.
    pub fn text_len(&self) -> usize
        ensures value { result ≡ length (signed S.form self.now) }
        ensures small { result < 2 ^ 33 }
    {
        9 + self.kept.len() + self.tag.as_slice().len()
    }

    /// Adds the bytes of the signed statement. Error: want of memory.
    pub fn put(&self, out: &mut Vec<u8>) -> Result<(), AllocError>
        ensures text { OnOk result (out.new.items ≡ out.old.items ++ signed S.form self.now) }
        ensures err { OnErr result (Extends out.old.items out.new.items) }
    {
        let kept = self.kept.as_slice();
        let tag = self.tag.as_slice();
        put_u8(out, S::kind())?;
        put_u16(out, self.signer)?;
        put_text(out, kept)?;
        put_short(out, tag)?;
        Ok(())
    }

    /// Reads a signed statement. Errors: a field that is none; want of memory.
    pub fn read(alloc: Global, cut: &mut Cursor<'_>) -> Result<Signed<S>, ReadError>
        ensures exact { Gives result cut.new (signed_at S.form cut.old) }
        ensures unchanged { OnErr result (cut.new ≡ cut.old) }
    {
        Signed::<S>::read_selected(alloc, &Every, cut)
    }

    /// Reads a signed statement of a selection. Errors: a field that is none; want of memory.
    #[tactic(auto, unfolding(crate::specs::Reading::signed_at, smart_base::specs::Cuts::sized_at, smart_base::specs::Cuts::whole))]
    pub fn read_selected<W: Selection<S>>(
        alloc: Global,
        which: &W,
        cut: &mut Cursor<'_>,
    ) -> Result<Signed<S>, ReadError>
        ensures exact { Gives result cut.new (signed_at (W.form which.now) cut.old) }
        ensures unchanged { OnErr result (cut.new ≡ cut.old) }
    {
        let kind = S::kind();
        let mut ahead = cut.ahead();
        take_kind(&mut ahead, kind)?;
        let signer = take_signer(&mut ahead, kind)?;
        let mut body = ahead.take_bytes()?;
        let kept = copied(alloc, &body)?;
        let statement = which.read(alloc, signer, &mut body)?;
        if !body.is_done() {
            return Err(ReadError::Unread { at: body.at() });
        }
        let tag = take_tag(alloc, &mut ahead)?;
        *cut = ahead;
        Ok(Signed {
            signer,
            statement,
            kept,
            tag,
        })
    }
}

impl<S: Statement> Duplicate for Signed<S> {
    fn duplicate(&self, alloc: Global) -> Result<Signed<S>, AllocError> {
        Ok(Signed {
            signer: self.signer,
            statement: self.statement.duplicate(alloc)?,
            kept: Bytes::from_slice(alloc, self.kept.as_slice())?,
            tag: self.tag.duplicate(alloc)?,
        })
    }
}
