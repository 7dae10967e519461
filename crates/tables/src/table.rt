//! The tables, and the call that each is about.
use crate::admission::told_of_book;
use crate::fault::RowFault;
use crate::plans::told_of_plan;
use crate::proofs_of::{told_of_choice, told_of_collect, told_of_votes};
use crate::spelling::{told_of_entry, told_of_message, told_of_view};
use std::alloc::Global;

/// What a table's rows are about.
#[derive(Clone, Copy)]
pub enum Table {
    /// The bytes of messages.
    Messages,
    /// The bytes of a book's entries.
    Entries,
    /// The bytes of a view that a member tells a client.
    Views,
    /// Which entry a book admits.
    Admission,
    /// Votes and marks in a view.
    Votes,
    /// Reports in views.
    Collects,
    /// What a member that lags takes over.
    Plans,
    /// What reports leave to a regency.
    Choices,
}

/// All tables, in the order in which they are tried.
pub const TABLES: [Table; 8] = [
    Table::Messages,
    Table::Entries,
    Table::Views,
    Table::Admission,
    Table::Votes,
    Table::Collects,
    Table::Plans,
    Table::Choices,
];

impl Table {
    /// The name of its file.
    pub fn name(self) -> &'static str {
        match self {
            Table::Messages => "messages",
            Table::Entries => "entries",
            Table::Views => "views",
            Table::Admission => "admission",
            Table::Votes => "votes",
            Table::Collects => "collects",
            Table::Plans => "plans",
            Table::Choices => "choices",
        }
    }

    /// What the call makes of bytes behind the other parts of a row, as a row says it.
    pub fn told(self, alloc: Global, heads: &[Vec<u8>], bytes: &[u8]) -> Result<String, RowFault> {
        match self {
            Table::Messages => told_of_message(alloc, bytes),
            Table::Entries => told_of_entry(alloc, bytes),
            Table::Views => told_of_view(alloc, bytes),
            Table::Admission => told_of_book(alloc, heads, bytes),
            Table::Votes => told_of_votes(alloc, heads, bytes),
            Table::Collects => told_of_collect(alloc, heads, bytes),
            Table::Plans => told_of_plan(alloc, heads, bytes),
            Table::Choices => told_of_choice(alloc, bytes),
        }
    }
}
