//! The limits within which members keep, send and read. Each stands here once: definitions and code
//! cite it by its name.

/// The most members of a view.
pub const MEMBERS: usize = 31;

/// The most members of a view that may be faulty.
pub const FAULTY: u8 = 10;

/// The greatest number of a view. The first view has number 0.
pub const LAST_VIEW: u32 = 1023;

/// The most views of a group, one after the other.
pub const VIEWS: u16 = 1024;

/// The greatest number of a client. Client 0 is the view manager.
pub const LAST_CLIENT: u16 = 1024;

/// The number of clients, the view manager among them.
pub const CLIENTS: u16 = LAST_CLIENT + 1;

/// The most requests of a batch.
pub const BATCH_REQUESTS: u16 = 64;

/// The most bytes of a batch.
pub const BATCH_BYTES: usize = 262_144;

/// The most bytes of an operation, and of a reply.
pub const PAYLOAD_BYTES: usize = 4096;

/// The most bytes of a tag.
pub const TAG_BYTES: usize = 4096;

/// The most bytes of a message.
pub const MESSAGE_BYTES: usize = 1_048_576;

/// The most messages of a play.
pub const MESSAGES: usize = 1 << 24;

/// The most bytes of a script's line.
pub const LINE_BYTES: usize = 65_536;

/// The number of places in which each member takes one checkpoint, if a script names none.
pub const PERIOD: u32 = 1024;

/// The greatest number of places in which each member takes one checkpoint.
pub const LAST_PERIOD: u32 = 1_048_576;

/// The most marks of a member that a node keeps.
pub const MARKS: usize = 64;

/// The most bytes of a service's state.
pub const STATE_BYTES: usize = 12_000_000;

/// The most bytes of a snapshot.
pub const SNAPSHOT_BYTES: usize = 16_777_216;

/// The bytes of each piece of a snapshot but the last, which may have fewer.
pub const PIECE_BYTES: usize = 65_536;
