//! What stands before a service's own snapshot in its replica's.

/// Place 1, view 0 of members 1 to 4, and no client's line.
pub const HEAD: [u8; 35] =
    *b"\0\0\0\0\0\0\0\x01\0\x01\0\0\0\0\0\0\0\0\0\0\0\x01\x01\0\x04\0\x01\0\x02\0\x03\0\x04\0\0";
