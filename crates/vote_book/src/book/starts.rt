//! Where regencies first began.
ghost use Rattle.std.specs.Prelude.{◌≡◌, ℕ, [], is_none, true, OnOk, OnErr, option_copied};
ghost use Rattle.smart_base.specs.Lists.{or_else};
ghost use Rattle.vote_book.specs.Standing.{start_if, start_under};

use crate::entry::Start;
use indexmap::IndexMap;
use smart_base::number::{Regency, ViewNo};
use std::alloc::{AllocError, Global};
use std::marker::Model;

/// The first beginnings of regencies, each under its view and regency.
pub struct FirstStarts {
    starts: IndexMap<(u32, u32), Start>,
}

/// Let go by one call, so that no function that lets one go carries the whole of it.
impl Drop for FirstStarts {
    fn drop(self) {
        let FirstStarts { starts: _ } = self;
    }
}

impl Model for FirstStarts {
    ghost use Rattle.std.specs.Prelude.{ℕ, List};
    ghost use Rattle.vote_book.specs.declared.entry.Start.{Start};

    ghost Value = { List ((ℕ × ℕ) × Start) };

    ghost view = { λ s. s.starts.entries };
}

impl FirstStarts {
    pub fn new(alloc: Global) -> Self
        ensures { result ≡ [] }
    {
        FirstStarts {
            starts: IndexMap::new(alloc),
        }
    }

    /// The first beginning of a regency of a view.
    pub fn get(&self, view: ViewNo, regency: Regency) -> Option<&Start>
        ensures { option_copied result ≡ start_under view regency self.now }
    {
        self.starts.get(&(view.get(), regency.get()))
    }

    /// Adds a beginning, where it is its regency's first.
    #[tactic(auto, using(crate::proofs::Standing::under_kept))]
    pub fn add(&mut self, start: &Start) -> Result<(), AllocError>
        ensures ok { OnOk result ((view regency : ℕ) → start_under view regency self.new ≡ or_else (start_under view regency self.old) (start_if view regency start.now)) }
        ensures err { OnErr result (self.new ≡ self.old) }
    {
        if self.get(start.view, start.regency).is_none() {
            self.put(start)?;
        }
        Ok(())
    }

    /// Adds its regency's first beginning.
    fn put(&mut self, start: &Start) -> Result<(), AllocError>
        requires { is_none (start_under start.now.view start.now.regency self.old) ≡ true }
        ensures ok { OnOk result ((view regency : ℕ) → start_under view regency self.new ≡ or_else (start_under view regency self.old) (start_if view regency start.now)) }
        ensures err { OnErr result (self.new ≡ self.old) }
    {
        let key = (start.view.get(), start.regency.get());
        let first = Start {
            view: start.view,
            regency: start.regency,
            base: start.base,
            bound: start.bound,
        };
        self.starts.insert(key, first)?;
        Ok(())
    }
}
