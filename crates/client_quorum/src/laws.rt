//! The law of acceptance.
ghost use Rattle.std.specs.Prelude.{◌≡◌, ℕ, List, [], None, false};
ghost use Rattle.smart_statements.specs.declared.statement.Request.{Request};
ghost use Rattle.smart_statements.specs.declared.statement.Answer.{Answer};
ghost use Rattle.client_quorum.specs.Clients.{asking};
ghost use Rattle.client_quorum.specs.Quorums.{after_words, came_to, quorum_gave, first_given, accepted_of};
ghost use Rattle.client_quorum.specs.declared.client.Client.{Client};
ghost use Rattle.client_quorum.specs.declared.client.Word.{Word};

/// A client that asks accepts the first reply with which a quorum has given the same view, place,
/// index and text to its request. It accepts no other. This holds for any replies and any statements of
/// views, in any order. The members of the quorum are of the view that the reply states, one that the
/// client knows, and each gave it with its own tag. Of each member its first reply that counts is taken.
/// If a client has accepted nothing, no reply has a quorum.
pub fn a_quorum_is_accepted()
    ensures exact { (secret : List ℕ) (c : Client) (q : Request) (ws : List Word) →
        accepted_of secret (asking c q) ws ≡ first_given secret q [] (came_to secret (asking c q) ws) }
    ensures complete { (secret : List ℕ) (c : Client) (q : Request) (ws : List Word) →
        accepted_of secret (asking c q) ws ≡ None → (a : Answer) →
        quorum_gave secret q (came_to secret (asking c q) ws) (after_words secret (asking c q) ws).views a ≡ false }
{}
