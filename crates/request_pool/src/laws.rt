//! Laws of a pool and of what is gathered from it. They speak of definitions alone.
ghost use Rattle.std.specs.Prelude.{◌≡◌, ◌≤◌, ℕ, List, [], ◌∷◌, true, false, Some, None, length, nat_lt};
ghost use Rattle.std.specs.List.{list_any};
ghost use Rattle.smart_base.specs.Lists.{Each, Distinct};
ghost use Rattle.smart_base.specs.declared.limits.TheConstants.{BATCH_BYTES};
ghost use Rattle.smart_statements.specs.Forms.{SignedBy};
ghost use Rattle.smart_statements.specs.Kinds.{requests};
ghost use Rattle.smart_statements.specs.Batches.{Batch, batch_text};
ghost use Rattle.smart_statements.specs.Spelling.{FitsSigned, FitsRequest};
ghost use Rattle.smart_statements.specs.declared.statement.Request.{Request};
ghost use Rattle.smart_service.specs.declared.table.TableLine.{TableLine};
ghost use Rattle.replica_rules.specs.Seals.{fits};
ghost use Rattle.replica_rules.specs.Pools.{offered, settled, gathered};
ghost use Rattle.request_pool.specs.Offers.{clients_of, offer_of, pool_after, IsSound};
ghost use Rattle.request_pool.specs.Orders.{IsSubsequence};

/// What is gathered from sound requests for a place is a batch that may stand there.
pub fn what_is_gathered_fits()
    ensures { (secret : List ℕ) (pool : List (SignedBy Request)) (place : ℕ) (batch : Batch) → Each (IsSound secret) pool → gathered pool place ≡ Some batch → fits secret batch place ≡ true }
{}

/// What is gathered are requests of the pool, in the pool's order.
pub fn what_is_gathered_is_in_order()
    ensures { (pool : List (SignedBy Request)) (place : ℕ) (batch : Batch) → gathered pool place ≡ Some batch → IsSubsequence batch pool }
{}

/// Nothing is gathered for a place only if no request states an earlier place.
pub fn what_may_stand_is_gathered()
    ensures { (pool : List (SignedBy Request)) (place : ℕ) → gathered pool place ≡ None → list_any (λ q. nat_lt q.statement.after place) pool ≡ false }
{}

/// A client has one request in a pool, whatever is offered and settled, and in what is gathered from
/// it.
pub fn a_client_has_one_request()
    ensures offered { (pool : List (SignedBy Request)) (q : SignedBy Request) → Distinct (clients_of pool) → Distinct (clients_of (offered pool q)) }
    ensures settled { (table : List TableLine) (pool : List (SignedBy Request)) → Distinct (clients_of pool) → Distinct (clients_of (settled table pool)) }
    ensures gathered { (pool : List (SignedBy Request)) (place : ℕ) (batch : Batch) → Distinct (clients_of pool) → gathered pool place ≡ Some batch → Distinct (clients_of batch) }
{}

/// Sound requests stay sound, whatever is settled, and whatever is offered if it is small enough
/// alone.
pub fn a_pool_stays_sound()
    ensures offered { (secret : List ℕ) (pool : List (SignedBy Request)) (q : SignedBy Request) (last : ℕ) → length (batch_text (q ∷ [])) ≤ BATCH_BYTES →
        Each (IsSound secret) pool → Each (IsSound secret) (pool_after (offer_of secret pool q last) pool q) }
    ensures settled { (secret : List ℕ) (table : List TableLine) (pool : List (SignedBy Request)) → Each (IsSound secret) pool → Each (IsSound secret) (settled table pool) }
{}

/// A request that has bytes is small enough alone.
pub fn a_spelled_request_is_small()
    ensures { (q : SignedBy Request) → FitsSigned requests FitsRequest q → length (batch_text (q ∷ [])) ≤ BATCH_BYTES }
{}
