//! Messages and checked collects give what the laws ask of statements.
ghost use Rattle.std.specs.Prelude.{ℕ, List};
ghost use Rattle.std.specs.List.{flat_map};
ghost use Rattle.smart_base.specs.Views.{View, present};
ghost use Rattle.smart_statements.specs.Forms.{SignedBy};
ghost use Rattle.smart_messages.specs.declared.message.Message.{Message};
ghost use Rattle.smart_statements.specs.declared.report.Report.{Report};
ghost use Rattle.certificates.specs.Collects.{IsCollect};
ghost use Rattle.agreement_laws.specs.Statements.{statements, IsClosed};
ghost use Rattle.agreement_laws.specs.Certificates.{IsLockedCollect};

/// The statements of messages are closed, whatever the messages are.
pub fn what_messages_state_is_closed()
    ensures { (secret : List ℕ) (messages : List Message) → IsClosed secret (flat_map (statements secret) messages) }
{}

/// A collect that passes its check has all that agreement asks of one.
pub fn a_checked_collect_is_locked()
    ensures { (secret : List ℕ) (views : List View) (regency : ℕ) (items : List (SignedBy Report)) →
        IsCollect secret views regency items → IsLockedCollect secret (present views) regency items }
{}
