//! Operations, as they are read from texts.
ghost use Rattle.std.specs.Prelude.{◌≡◌, ◌<◌, length, position, IfSome};
ghost use Rattle.app_kv.specs.Operations.{are_from, is_key, is_value, is_space, first_word, other_words, put_of, get_of, del_of, operation_of, Reads};

/// The most bytes of a key.
pub const KEY_BYTES: usize = 64;

/// The most bytes of a value.
pub const VALUE_BYTES: usize = 1024;

/// An operation. Its words are parts of the text that it was read from.
#[derive(Drop)]
pub enum Operation<'a> {
    /// Gives a key a value.
    Put { key: &'a [u8], value: &'a [u8] },
    /// Tells the value of a key.
    Get { key: &'a [u8] },
    /// Takes a key out.
    Del { key: &'a [u8] },
    /// What is no operation.
    Other,
}

/// Whether all bytes of a text are from the least to 0x7e.
fn are_from(least: u8, text: &[u8]) -> bool
    ensures { result ≡ are_from least text.now }
{
    text.iter().all(|byte| least <= *byte && *byte <= b'~')
}

/// Whether a text is a key: 1 to 64 bytes from 0x21 to 0x7e.
pub fn is_key(text: &[u8]) -> bool
    ensures { result ≡ is_key text.now }
{
    1 <= text.len() && text.len() <= KEY_BYTES && are_from(b'!', text)
}

/// Whether a text is a value: 1 to 1,024 bytes from 0x20 to 0x7e.
pub fn is_value(text: &[u8]) -> bool
    ensures { result ≡ is_value text.now }
{
    1 <= text.len() && text.len() <= VALUE_BYTES && are_from(b' ', text)
}

fn space_in(text: &[u8]) -> Option<usize>
    ensures place { result ≡ position is_space text.now }
    ensures within { IfSome result (λ at. at < length text.now) }
{
    text.iter().position(|byte| *byte == b' ')
}

/// What stands before the first space, and what behind it.
fn parts(text: &[u8]) -> (&[u8], &[u8])
    ensures first { result.0.now ≡ first_word text.now }
    ensures others { result.1.now ≡ other_words text.now }
{
    match space_in(text) {
        None => (text, &[]),
        Some(at) => (&text[..at], &text[at + 1..]),
    }
}

fn put_of<'a>(key: &'a [u8], value: &'a [u8]) -> Operation<'a>
    ensures { Reads result (put_of key.now value.now) }
{
    if is_key(key) && is_value(value) {
        Operation::Put { key, value }
    } else {
        Operation::Other
    }
}

fn get_of(key: &[u8]) -> Operation<'_>
    ensures { Reads result (get_of key.now) }
{
    if is_key(key) {
        Operation::Get { key }
    } else {
        Operation::Other
    }
}

fn del_of(key: &[u8]) -> Operation<'_>
    ensures { Reads result (del_of key.now) }
{
    if is_key(key) {
        Operation::Del { key }
    } else {
        Operation::Other
    }
}

/// The operation that a text is.
pub fn operation_of(text: &[u8]) -> Operation<'_>
    ensures { Reads result (operation_of text.now) }
{
    let (command, rest) = parts(text);
    if command == b"put".as_slice() {
        let (key, value) = parts(rest);
        put_of(key, value)
    } else if command == b"get".as_slice() {
        get_of(rest)
    } else if command == b"del".as_slice() {
        del_of(rest)
    } else {
        Operation::Other
    }
}
