//! Who sends, hears and does things, and the columns of them.

use std::alloc::{AllocError, Global};

/// A member, a client, or the script.
#[derive(Clone, Copy, PartialEq, Eq)]
pub enum Party {
    Member(u64),
    Client(u64),
    Script,
}

/// A column of a picture, and the regency that its member takes part in.
#[derive(Clone, Copy)]
pub struct Column {
    pub party: Party,
    pub x: u64,
    pub regency: u64,
}

/// The most columns that a picture has room for.
const COLUMNS: usize = 36;

/// A number in decimal digits.
pub fn number_in(digits: &str) -> Option<u64> {
    digits.parse::<u64>().ok()
}

/// The party of a word: `n1` is member 1, `c1` client 1, and `x` the script.
pub fn party_of(word: &str) -> Option<Party> {
    if word == "x" {
        return Some(Party::Script);
    }
    match word.strip_prefix('n') {
        Some(digits) => Some(Party::Member(number_in(digits)?)),
        None => Some(Party::Client(number_in(word.strip_prefix('c')?)?)),
    }
}

/// Adds a party, if it is not there and there is room.
pub fn add_party(parties: &mut Vec<Party>, party: Party) -> Result<(), AllocError> {
    if parties.len() < COLUMNS && !parties.contains(&party) {
        parties.push(party)?;
    }
    Ok(())
}

/// How far columns stand from each other.
fn distance_of(count: usize) -> u64 {
    if count <= 1 {
        return 0;
    }
    (830 / (count - 1) as u64).min(210)
}

/// The columns of parties, from left to right.
pub fn columns_of(alloc: Global, parties: &[Party]) -> Result<Vec<Column>, AllocError> {
    let mut columns = Vec::new(alloc);
    let distance = distance_of(parties.len());
    let mut x = 340u64;
    for party in parties {
        columns.push(Column {
            party: *party,
            x,
            regency: 0,
        })?;
        x = x.saturating_add(distance);
    }
    Ok(columns)
}

/// The column of a party.
pub fn column_of(columns: &[Column], party: Party) -> Option<Column> {
    for column in columns {
        if column.party == party {
            return Some(*column);
        }
    }
    None
}

/// Notes the regency that a party takes part in.
pub fn note_regency(columns: &mut [Column], party: Party, regency: u64) {
    for column in columns {
        if column.party == party {
            column.regency = regency;
        }
    }
}
