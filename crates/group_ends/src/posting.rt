//! How a message leaves a party: its trail tells that it was sent, it is put on the links whose ends are to
//! hear it, and the trail tells which of them dropped it.
ghost use Rattle.std.specs.Prelude.{◌≡◌, ◌≤◌, ◌⊎◌, [], true, false, OnOk, OnErr, IfOk, IsErrOf};
ghost use Rattle.faults.specs.Counts.{Rose};
ghost use Rattle.smart_base.specs.Lists.{Each};
ghost use Rattle.smart_messages.specs.Messages.{spelling};
ghost use Rattle.group_ends.specs.Carried.{DropsLate};
ghost use Rattle.group_ends.specs.Journals.{has_end};
ghost use Rattle.group_ends.specs.Ports.{ends, port_links, AreApart, AreWithin, Carries, CarriesFirst, IsPosted, IsSpread, IsSpreadFirst};

use crate::journal::Journal;
use crate::owner::Owner;
use crate::port::Port;
use crate::sending::{losts_of, offer_all};
use faults::Fault;
use smart_base::duplicate::Duplicate;
use smart_base::sequence::Bytes;
use smart_io::stream::Sink;
use smart_messages::codec::encode;
use std::alloc::{AllocError, Global};
use std::sync::Wait;
use trail::event::{Addressed, TrailEvent};

/// A message that is to leave, with a copy of it and its bytes.
#[derive(Drop)]
pub struct Parcel {
    pub sent: Addressed,
    copy: Addressed,
    text: Bytes,
    pub ghost same: { copy ≡ sent },
    pub ghost text_is: { text ≡ spelling sent.message },
}

impl Parcel {
    ghost use Rattle.std.specs.Prelude.{◌≡◌, IfOk};

    /// A message that is to leave. Error: want of memory.
    pub fn of(alloc: Global, sent: Addressed) -> Result<Parcel, AllocError>
        ensures { IfOk result (λ p. p.sent ≡ sent) }
    {
        let text = Bytes::from_vec(encode(alloc, &sent.message)?);
        let message = sent.message.duplicate(alloc)?;
        let copy = Addressed {
            to: sent.to,
            message,
        };
        Ok(Parcel { sent, copy, text })
    }
}

/// Offers a message to links, and notes which of them dropped it. Errors: as at `post`.
fn spread<P: Owner, O: Sink, R: Wait>(
    rt: &R,
    alloc: Global,
    journal: &mut Journal<P, O>,
    ports: &mut Vec<Port>,
    sent: &Addressed,
    text: &Bytes,
) -> Result<(), Fault>
    requires whole { journal.old.whole ≡ true }
    requires going { has_end journal.old.events.items ≡ false }
    requires text { text.now ≡ spelling sent.now.message }
    ensures number { journal.new.number ≡ journal.old.number }
    ensures ok { OnOk result (IsSpread sent.now ports.old.items ports.new.items journal.old.events.items journal.new.events.items) }
    ensures err { OnErr result ((AreWithin sent.now.to text.now ports.old.items ports.new.items × (journal.new.events.items ≡ journal.old.events.items)) ⊎ IsSpreadFirst sent.now ports.old.items ports.new.items journal.old.events.items journal.new.events.items) }
    ensures whole { OnOk result (journal.new.whole ≡ true) }
    ensures going { has_end journal.new.events.items ≡ false }
    ensures later { O.faults journal.old.sink ≤ O.faults journal.new.sink }
    ensures cause { IsErrOf result Fault.Failed → (journal.new.failed ≡ true) × Rose (O.faults journal.old.sink) (O.faults journal.new.sink) }
{
    let Ok(dropped) = offer_all(rt, alloc, ports, &sent.to, text) else {
        return Err(Fault::NoMemory);
    };
    let Ok(lost) = losts_of(alloc, sent, ports.as_slice(), dropped.as_slice()) else {
        return Err(Fault::NoMemory);
    };
    journal.note_each(lost)
}

/// Lets a message leave, and notes that in any case. Errors: a failure of the trail's sink; want of
/// memory. Some links have the message then, and others have not.
pub fn post<P: Owner, O: Sink, R: Wait>(
    rt: &R,
    alloc: Global,
    journal: &mut Journal<P, O>,
    ports: &mut Vec<Port>,
    parcel: Parcel,
) -> Result<(), Fault>
    requires whole { journal.old.whole ≡ true }
    requires going { has_end journal.old.events.items ≡ false }
    requires apart { AreApart (ends ports.old.items) }
    requires carries { Each (Carries journal.old.events.items) ports.old.items }
    requires late { DropsLate (ends ports.old.items) [] journal.old.events.items }
    ensures ports { (ends ports.new.items ≡ ends ports.old.items) × (port_links ports.new.items ≡ port_links ports.old.items) }
    ensures number { journal.new.number ≡ journal.old.number }
    ensures posted { IsPosted parcel.sent (ends ports.old.items) journal.old.events.items journal.new.events.items }
    ensures ok { OnOk result (Each (Carries journal.new.events.items) ports.new.items) }
    ensures err { OnErr result (Each (CarriesFirst journal.new.events.items) ports.new.items) }
    ensures late { DropsLate (ends ports.new.items) [] journal.new.events.items }
    ensures whole { OnOk result (journal.new.whole ≡ true) }
    ensures going { has_end journal.new.events.items ≡ false }
    ensures later { O.faults journal.old.sink ≤ O.faults journal.new.sink }
    ensures cause { IsErrOf result Fault.Failed → (journal.new.failed ≡ true) × Rose (O.faults journal.old.sink) (O.faults journal.new.sink) }
{
    let Parcel { sent, copy, text } = parcel;
    journal.note(TrailEvent::Send(sent))?;
    spread(rt, alloc, journal, ports, &copy, &text)
}
