//! What is sent: its bytes, and what a transcript tells of it.
ghost use Rattle.std.specs.Prelude.{◌≡◌, IfOk, option_to_list, option_copied};
ghost use Rattle.world_rules.specs.Premises.{batches, bytes_of};
ghost use Rattle.world_rules.specs.Injections.{batch_proposed, content_of};
ghost use Rattle.world_rules.specs.Worlds.{summary};

use message_words::words::{Summary, summary_of};
use smart_base::duplicate::Duplicate;
use smart_base::fault::ReadError;
use smart_base::sequence::Bytes;
use smart_messages::codec::{decode, encode};
use smart_messages::message::{batch_in, proposal_in};
use smart_statements::batch::Batch;
use std::alloc::{AllocError, Global};
use world_rules::line::OutLine;
use world_rules::message::{Content, Origin};

/// The message that bytes spell, or the bytes where they spell none.
#[tactic(auto, unfolding(world_rules::specs::Injections::content_of))]
pub fn read_content(alloc: Global, bytes: Bytes) -> Result<Content, AllocError>
    ensures { IfOk result (λ content. content ≡ content_of bytes) }
{
    match decode(alloc, bytes.as_slice()) {
        Ok(message) => Ok(Content::Message(message)),
        Err(ReadError::Unread { .. }) => Ok(Content::Raw(bytes)),
        Err(ReadError::NoMemory) => Err(AllocError),
    }
}

/// What arrives where a content is given.
pub fn content_bytes(alloc: Global, content: &Content) -> Result<Bytes, AllocError>
    ensures { IfOk result (λ bytes. bytes ≡ bytes_of content.now) }
{
    match content {
        Content::Message(message) => Ok(Bytes::from_vec(encode(alloc, message)?)),
        Content::Raw(bytes) => Ok(bytes.duplicate(alloc)?),
    }
}

/// The batch that a content proposes.
pub fn batch_proposed(content: &Content) -> Option<&Batch>
    ensures { option_copied result ≡ batch_proposed content.now }
{
    match content {
        Content::Message(message) => match proposal_in(message) {
            None => None,
            Some(proposed) => Some(&proposed.batch),
        },
        Content::Raw(_) => None,
    }
}

/// The batch in a content: what it proposes, or what a report is locked on.
pub fn batch_met(content: &Content) -> Option<&Batch>
    ensures { option_to_list (option_copied result) ≡ batches content.now }
{
    match content {
        Content::Message(message) => batch_in(message),
        Content::Raw(_) => None,
    }
}

/// What a transcript tells of a content.
pub fn summary(content: &Content) -> Summary
    ensures { result ≡ summary content.now }
{
    match content {
        Content::Message(message) => summary_of(message),
        Content::Raw(_) => Summary::Raw,
    }
}

/// The line that tells that a content left.
pub fn sent_line(number: u64, origin: &Origin, content: &Content) -> OutLine
    ensures { result ≡ OutLine.Sent number origin.now (summary content.now) }
{
    OutLine::Sent {
        number,
        origin: *origin,
        summary: summary(content),
    }
}
