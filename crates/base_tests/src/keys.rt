//! Digests against values from outside. Tags from outside are checked by the rows of top_rows and tables.
use smart_base::keys::Digester;
use smart_keys::hash::{Sha, hmac};

/// A number below 16 in hexadecimal.
fn digit(number: u8) -> u8 {
    let first = if number < 10 { b'0' } else { b'a' - 10 };
    first.wrapping_add(number)
}

/// Whether a text is the bytes in hexadecimal.
fn is_hex(bytes: &[u8], text: &str) -> bool {
    let mut digits = text.bytes();
    for byte in bytes {
        let high = digits.next() == Some(digit(*byte / 16));
        let low = digits.next() == Some(digit(*byte % 16));
        if !high || !low {
            return false;
        }
    }
    digits.next().is_none()
}

/// Whether a text has this digest.
fn hashes(text: &str, want: &str) -> bool {
    is_hex(Sha::digest(text.as_bytes()).as_slice(), want)
}

#[test]
fn digests_are_those_of_fips_180_4(rt: HostRuntime) {
    assert!(rt;
        hashes(
            "",
            "e3b0c44298fc1c149afbf4c8996fb92427ae41e4649b934ca495991b7852b855",
        )
    );
    assert!(rt;
        hashes(
            "abc",
            "ba7816bf8f01cfea414140de5dae2223b00361a396177a9cb410ff61f20015ad",
        )
    );
    assert!(rt;
        hashes(
            "abcdbcdecdefdefgefghfghighijhijkijkljklmklmnlmnomnopnopq",
            "248d6a61d20638b8e5c026930c3e6039a33ce45964ff2167f6ecedd419db06c1",
        )
    );
}

/// Whether a key makes this of a text.
fn makes(key: &[u8], text: &[u8], want: &str) -> bool {
    is_hex(hmac(key, text).as_slice(), want)
}

/// The cases whose results are whole.
#[test]
fn keyed_digests_are_those_of_rfc_4231(rt: HostRuntime) {
    assert!(rt;
        makes(
            &[0x0b; 20],
            b"Hi There",
            "b0344c61d8db38535ca8afceaf0bf12b881dc200c9833da726e9376c2e32cff7",
        )
    );
    assert!(rt;
        makes(
            b"Jefe",
            b"what do ya want for nothing?",
            "5bdcc146bf60754e6a042426089575c75a003f089d2739839dec58b964ec3843",
        )
    );
    assert!(rt;
        makes(
            &[0xaa; 20],
            &[0xdd; 50],
            "773ea91e36800e46854db8ebd09181a72959098b3ef8c122d9635514ced565fe",
        )
    );
    assert!(rt;
        makes(
            b"\x01\x02\x03\x04\x05\x06\x07\x08\x09\x0a\x0b\x0c\x0d\x0e\x0f\x10\x11\x12\x13\x14\x15\x16\x17\x18\x19",
            &[0xcd; 50],
            "82558a389a443c0ea4cc819899f2083a85f0faa3e578f8077a2e3ff46729665b",
        )
    );
    assert!(rt;
        makes(
            &[0xaa; 131],
            b"Test Using Larger Than Block-Size Key - Hash Key First",
            "60e431591ee0b67f0d8a26aacbf5b77f8e0bc6213728c5140546040f0ee37f54",
        )
    );
    assert!(rt;
        makes(
            &[0xaa; 131],
            b"This is a test using a larger than block-size key and a larger than block-size data. The key needs to be hashed before being used by the HMAC algorithm.",
            "9b09ffa71b942fcb27635fbcd5b0e944bfdc63644f0713938a7f51535c3a35e2",
        )
    );
}

/// Keys of a block, of one byte more and of no byte. The results are from Python's `hmac`.
#[test]
fn keyed_digests_are_those_of_python(rt: HostRuntime) {
    assert!(rt;
        makes(
            &[7; 64],
            b"block",
            "0a2dfabefe448802771020ac6f964976e7cee2c5af783bbcdc05c7db99f10809",
        )
    );
    assert!(rt;
        makes(
            &[7; 65],
            b"block",
            "ead5997e2521476c6ae6a3340c2fadbe679b4f0cb7ae6418b1f3125b2a1f1f5a",
        )
    );
    assert!(rt;
        makes(
            b"",
            b"",
            "b613679a0814d9ec772f95d778c35fc5ff1697c493715653c6c712144292c5ad",
        )
    );
}
