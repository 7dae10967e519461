//! Laws of statements and batches and their bytes.
ghost use Rattle.std.specs.Prelude.{◌≡◌, ℕ};
ghost use Rattle.smart_statements.specs.Batches.{Batch, FitsBatch, batch_text};
ghost use Rattle.smart_statements.specs.Forms.{Form};

use crate::signed::Statement;

/// Batches with the same bytes are one batch. What names the bytes therefore names the batch.
pub fn batches_with_one_text_are_one()
    ensures { (a b : Batch) → FitsBatch a → FitsBatch b → batch_text a ≡ batch_text b → a ≡ b }
{}

/// Statements of one signer with the same bytes are one statement. A tag over the bytes is therefore
/// over this statement alone.
pub fn statements_with_one_text_are_one<S: Statement>()
    ensures { (signer : ℕ) (a b : S) → S.fits signer a → S.fits signer b → Form.spell S.form a ≡ Form.spell S.form b → a ≡ b }
{}
