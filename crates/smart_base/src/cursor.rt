//! A cursor over bytes.
ghost use Rattle.std.specs.Prelude.{◌≡◌, ◌==◌, ◌≤◌, ◌<◌, ◌^◌, length, IfOk, OnErr};
ghost use Rattle.std.specs.Int.{w8, w16, w32, w64};
ghost use Rattle.smart_base.specs.Cuts.{Takes, IsBytes, number_at, bytes_at, fixed_at, past, front};

use crate::fault::Unread;
use std::marker::Model;

/// The bytes that are left to read, and the offset at which they begin.
#[derive(Drop)]
pub struct Cursor<'a> {
    at: usize,
    left: &'a [u8],
}

impl<'a> Model for Cursor<'a> {
    ghost use Rattle.std.specs.Prelude.{◌<◌, ◌+◌, ◌^◌, length};
    ghost use Rattle.smart_base.specs.Cuts.{Cut, IsBytes};

    ghost Value = { Cut };

    ghost view = { λ c. record { at = c.at; left = c.left.now } };

    ghost invariant = { λ c. (c.at + length c.left.now < 2 ^ 63) × IsBytes c.left.now };
}

impl<'a> Cursor<'a> {
    /// All of these bytes.
    pub fn new(bytes: &'a [u8]) -> Cursor<'a>
        ensures { result ≡ record { at = 0; left = bytes.now } }
    {
        Cursor { at: 0, left: bytes }
    }

    /// The offset of what is left.
    pub fn at(&self) -> usize
        ensures { result ≡ self.now.at }
    {
        self.at
    }

    /// Whether nothing is left.
    pub fn is_done(&self) -> bool
        ensures { result ≡ (length self.now.left == 0) }
    {
        self.left.is_empty()
    }

    /// What is left.
    pub fn rest(&self) -> &'a [u8]
        ensures value { result.now ≡ self.now.left }
        ensures bytes { IsBytes self.now.left }
    {
        self.left
    }

    /// The same cursor, with which to look ahead.
    pub fn ahead(&self) -> Cursor<'a>
        ensures { result ≡ self.now }
    {
        Cursor {
            at: self.at,
            left: self.left,
        }
    }

    /// The first `count` bytes of what is left, or all of it.
    #[tactic(auto, using(crate::specs::Bytes::bytes_take))]
    pub fn front(&self, count: usize) -> Cursor<'a>
        ensures { result ≡ front count self.now }
    {
        if self.left.len() <= count {
            return Cursor {
                at: self.at,
                left: self.left,
            };
        }
        let (front, _rest) = self.left.split_at(count);
        Cursor {
            at: self.at,
            left: front,
        }
    }

    /// Passes over bytes.
    #[tactic(auto, using(crate::specs::Bytes::bytes_drop))]
    pub fn skip(&mut self, count: usize)
        requires { count ≤ length self.old.left }
        ensures { self.new ≡ past count self.old }
    {
        let (_front, rest) = self.left.split_at(count);
        self.at += count;
        self.left = rest;
    }

    /// A field of `count` bytes.
    #[tactic(auto, using(crate::specs::Bytes::bytes_take, crate::specs::Bytes::bytes_drop))]
    pub fn fixed(&mut self, count: usize) -> Result<Cursor<'a>, Unread>
        ensures field { Takes result self.new (fixed_at count self.old) }
        ensures long { IfOk result (λ field. length field.left ≡ count) }
        ensures unchanged { OnErr result (self.new ≡ self.old) }
    {
        if self.left.len() < count {
            return Err(Unread { at: self.at });
        }
        let (front, rest) = self.left.split_at(count);
        let field = Cursor {
            at: self.at,
            left: front,
        };
        self.at += count;
        self.left = rest;
        Ok(field)
    }

    /// A byte.
    #[tactic(auto, unfolding(crate::specs::Cuts::number_at))]
    pub fn take_u8(&mut self) -> Result<u8, Unread>
        ensures number { Takes result self.new (number_at w8 self.old) }
        ensures unchanged { OnErr result (self.new ≡ self.old) }
    {
        let front = self.fixed(1)?.rest();
        Ok(u8::from_be_bytes([front[0]]))
    }

    /// A number of 16 bits.
    #[tactic(auto, unfolding(crate::specs::Cuts::number_at))]
    pub fn take_u16(&mut self) -> Result<u16, Unread>
        ensures number { Takes result self.new (number_at w16 self.old) }
        ensures unchanged { OnErr result (self.new ≡ self.old) }
    {
        let front = self.fixed(2)?.rest();
        Ok(u16::from_be_bytes([front[0], front[1]]))
    }

    /// A number of 32 bits.
    #[tactic(auto, unfolding(crate::specs::Cuts::number_at))]
    pub fn take_u32(&mut self) -> Result<u32, Unread>
        ensures number { Takes result self.new (number_at w32 self.old) }
        ensures unchanged { OnErr result (self.new ≡ self.old) }
    {
        let front = self.fixed(4)?.rest();
        Ok(u32::from_be_bytes([front[0], front[1], front[2], front[3]]))
    }

    /// A number of 64 bits.
    #[tactic(auto, unfolding(crate::specs::Cuts::number_at))]
    pub fn take_u64(&mut self) -> Result<u64, Unread>
        ensures number { Takes result self.new (number_at w64 self.old) }
        ensures unchanged { OnErr result (self.new ≡ self.old) }
    {
        let front = self.fixed(8)?.rest();
        Ok(u64::from_be_bytes([
            front[0], front[1], front[2], front[3], front[4], front[5], front[6], front[7],
        ]))
    }

    /// A length of 32 bits and that many bytes; the fault is at the length.
    #[tactic(auto, unfolding(crate::specs::Cuts::text_at, crate::specs::Cuts::ranged))]
    pub fn take_bytes(&mut self) -> Result<Cursor<'a>, Unread>
        ensures field { Takes result self.new (bytes_at self.old) }
        ensures small { IfOk result (λ field. length field.left < 2 ^ 32) }
        ensures unchanged { OnErr result (self.new ≡ self.old) }
    {
        let at = self.at;
        let mut ahead = self.ahead();
        let count = ahead.take_u32()? as usize;
        if ahead.left.len() < count {
            return Err(Unread { at });
        }
        let field = ahead.fixed(count)?;
        *self = ahead;
        Ok(field)
    }
}
