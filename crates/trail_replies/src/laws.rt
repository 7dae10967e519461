//! The law of the replies that clients accept, over recorded runs.
ghost use Rattle.std.specs.Prelude.{◌≡◌, ℕ, List};
ghost use Rattle.smart_base.specs.Lists.{Each};
ghost use Rattle.audit_rules.specs.declared.recorded.Recorded.{Recorded};
ghost use Rattle.audit_rules.specs.Coherence.{Coherent, Fresh};
ghost use Rattle.client_quorum.specs.declared.client.Acceptance.{Acceptance};
ghost use Rattle.client_quorum.specs.declared.client.Client.{Client};
ghost use Rattle.client_seat.specs.Asks.{Asks, acceptances};
ghost use Rattle.trail.specs.declared.event.TrailEvent.{TrailEvent};
ghost use Rattle.trail_agreement.specs.Deliveries.{AreSpelled, NoCollisionBy};
ghost use Rattle.trail_replies.specs.Answers.{AnsweredBy, IsAskedOwn};

/// The replies that clients accept by recorded runs are answers on the one list that the runs deliver
/// (state machine replication). The runs are coherent, and begin with the empty replica.
///
/// *Premises.* Those of `recorded_runs_deliver_one_list`.
///
/// *Conclusion.* The runs deliver one list of batches. Take any trail of them, and a client that hears all
/// that came there. Each reply that it accepts is the service's answer at its place and index in that list.
/// The request there has the number and the client of the one that was asked, and that client's tag. It is
/// executed there and nowhere else. The reply states the view in force there.
pub fn accepted_replies_are_answers()
    ensures { (trails : List Recorded) → AreSpelled trails → Coherent trails → (fresh : Fresh trails) → NoCollisionBy fresh.app trails → AnsweredBy fresh.app trails }
{}

/// A client that sends the requests that it has to ask next, and no other, accepts replies to its own
/// requests alone.
pub fn a_client_accepts_replies_to_its_own_requests()
    ensures { (secret : List ℕ) (c : Client) (events : List TrailEvent) → Asks secret c events → IsAskedOwn c → Each (λ (a : Acceptance). a.request.client ≡ c.id) (acceptances secret c events) }
{}
