//! The words of a table: names, hexadecimal digits, and either so many times.
use crate::fault::RowFault;
use hex::FromHexError;
use std::alloc::Global;

/// A name and the bytes that it stands for.
#[derive(Drop)]
struct Name {
    text: String,
    bytes: Vec<u8>,
}

/// The names that a table has given so far.
#[derive(Drop)]
pub struct Names {
    alloc: Global,
    list: Vec<Name>,
}

fn digits_of(alloc: Global, word: &str) -> Result<Vec<u8>, RowFault> {
    match hex::decode(alloc, word) {
        Ok(bytes) => Ok(bytes),
        Err(FromHexError::OutOfMemory) => Err(RowFault::NoMemory),
        Err(_) => Err(RowFault::Word),
    }
}

/// A word as a number of times and another word: `64*00` is 64 zeros.
fn count_of(word: &str) -> Result<(usize, &str), RowFault> {
    match word.split_once('*') {
        None => Ok((1, word)),
        Some((count, rest)) => Ok((number_of(count)?, rest)),
    }
}

/// A number in decimal digits.
pub fn number_of(digits: &str) -> Result<usize, RowFault> {
    digits.parse::<usize>().ok().ok_or(RowFault::Word)
}

impl Names {
    pub fn new(alloc: Global) -> Names {
        Names {
            alloc,
            list: Vec::new(alloc),
        }
    }

    /// Gives a name to the bytes of words.
    pub fn give(&mut self, text: &str, words: &str) -> Result<(), RowFault> {
        let bytes = self.bytes_of(words)?;
        let text = String::from_str(self.alloc, text)?;
        self.list.push(Name { text, bytes })?;
        Ok(())
    }

    /// The bytes of a name, if it was given.
    fn get(&self, text: &str) -> Option<&[u8]> {
        for name in self.list.as_slice() {
            if name.text.as_str() == text {
                return Some(name.bytes.as_slice());
            }
        }
        None
    }

    /// The bytes of a name, or of digits.
    fn once(&self, word: &str) -> Result<Vec<u8>, RowFault> {
        match self.get(word) {
            Some(bytes) => Ok(Vec::from_slice(self.alloc, bytes)?),
            None => digits_of(self.alloc, word),
        }
    }

    fn put(&self, out: &mut Vec<u8>, word: &str) -> Result<(), RowFault> {
        let (count, rest) = count_of(word)?;
        let bytes = self.once(rest)?;
        for _ in 0..count {
            out.extend_from_slice(bytes.as_slice())?;
        }
        Ok(())
    }

    /// The bytes of words, one after the other.
    pub fn bytes_of(&self, words: &str) -> Result<Vec<u8>, RowFault> {
        let mut out = Vec::new(self.alloc);
        for word in words.split_whitespace() {
            self.put(&mut out, word)?;
        }
        Ok(out)
    }

    /// The parts of a row, each of words, with commas between them.
    pub fn parts_of(&self, text: &str) -> Result<Vec<Vec<u8>>, RowFault> {
        let mut parts = Vec::new(self.alloc);
        for words in text.split(',') {
            parts.push(self.bytes_of(words)?)?;
        }
        Ok(parts)
    }
}
