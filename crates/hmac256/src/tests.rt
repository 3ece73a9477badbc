ghost use Rattle.std.specs.Prelude.{◌<◌};

use super::*;

// The seventh test case of RFC 4231, whose key and text are both longer than a block.
const LONG_KEY: [u8; 131] = [0xaa; 131];

const LONG_TEXT: &[u8] =
    b"This is a test using a larger than block-size key and a larger than block-size data. The key needs to be hashed before being used by the HMAC algorithm.";

const LONG_DIGEST: &[u8] =
    b"\x9b\x09\xff\xa7\x1b\x94\x2f\xcb\x27\x63\x5f\xbc\xd5\xb0\xe9\x44\xbf\xdc\x63\x64\x4f\x07\x13\x93\x8a\x7f\x51\x53\x5c\x3a\x35\xe2";

// The test cases 1 to 7 of RFC 4231 (of the fifth it has the first 16 bytes alone), then a key of
// one block and a key of one byte more, whose digests are from another implementation.
#[test]
fn digests_are_those_of_the_standard(rt: HostRuntime) {
    let counted: &[u8] =
        b"\x01\x02\x03\x04\x05\x06\x07\x08\x09\x0a\x0b\x0c\x0d\x0e\x0f\x10\x11\x12\x13\x14\x15\x16\x17\x18\x19";
    let table: [(&[u8], &[u8], &[u8]); 9] = [
        (
            &[0x0b; 20],
            b"Hi There",
            b"\xb0\x34\x4c\x61\xd8\xdb\x38\x53\x5c\xa8\xaf\xce\xaf\x0b\xf1\x2b\x88\x1d\xc2\x00\xc9\x83\x3d\xa7\x26\xe9\x37\x6c\x2e\x32\xcf\xf7",
        ),
        (
            b"Jefe",
            b"what do ya want for nothing?",
            b"\x5b\xdc\xc1\x46\xbf\x60\x75\x4e\x6a\x04\x24\x26\x08\x95\x75\xc7\x5a\x00\x3f\x08\x9d\x27\x39\x83\x9d\xec\x58\xb9\x64\xec\x38\x43",
        ),
        (
            &[0xaa; 20],
            &[0xdd; 50],
            b"\x77\x3e\xa9\x1e\x36\x80\x0e\x46\x85\x4d\xb8\xeb\xd0\x91\x81\xa7\x29\x59\x09\x8b\x3e\xf8\xc1\x22\xd9\x63\x55\x14\xce\xd5\x65\xfe",
        ),
        (
            counted,
            &[0xcd; 50],
            b"\x82\x55\x8a\x38\x9a\x44\x3c\x0e\xa4\xcc\x81\x98\x99\xf2\x08\x3a\x85\xf0\xfa\xa3\xe5\x78\xf8\x07\x7a\x2e\x3f\xf4\x67\x29\x66\x5b",
        ),
        (
            &[0x0c; 20],
            b"Test With Truncation",
            b"\xa3\xb6\x16\x74\x73\x10\x0e\xe0\x6e\x0c\x79\x6c\x29\x55\x55\x2b",
        ),
        (
            &[0xaa; 131],
            b"Test Using Larger Than Block-Size Key - Hash Key First",
            b"\x60\xe4\x31\x59\x1e\xe0\xb6\x7f\x0d\x8a\x26\xaa\xcb\xf5\xb7\x7f\x8e\x0b\xc6\x21\x37\x28\xc5\x14\x05\x46\x04\x0f\x0e\xe3\x7f\x54",
        ),
        (&LONG_KEY, LONG_TEXT, LONG_DIGEST),
        (
            &[0x61; 64],
            b"",
            b"\xb3\x89\xef\x8f\xc2\x4e\x40\xe3\x5b\x42\xb7\x02\x21\xb4\x66\x91\x68\x36\xa2\x41\x25\x76\x99\xd0\x90\xbc\x73\x6b\x8a\xd2\x1b\x98",
        ),
        (
            &[0x61; 65],
            b"",
            b"\xe4\x00\x29\x7d\x15\xaf\x57\x19\xb8\xef\x44\xaf\xd7\x90\xa1\xd7\x05\xa4\xa3\x6e\x4f\x49\xb6\x9b\x40\x15\xc0\xed\x86\xbf\x60\x7f",
        ),
    ];
    for (key, text, digest) in table {
        assert!(rt; hmac256(key, text).starts_with(digest), "{digest:?}");
    }
}

// The digest of a text that is taken in piece by piece.
fn digest_in_pieces(key: &[u8], text: &[u8], size: usize) -> [u8; 32]
    requires { 0 < size }
{
    let mut hmac = Hmac::new(key);
    for piece in text.chunks(size) {
        hmac.update(piece);
    }
    hmac.finish()
}

// However the text is cut, the digest is that of the whole.
#[test]
fn pieces_give_the_digest_of_the_text(rt: HostRuntime) {
    for size in [1usize, 7, 63, 64, 65, 152] {
        let digest = digest_in_pieces(&LONG_KEY, LONG_TEXT, size);
        assert_eq!(rt; digest.as_slice(), LONG_DIGEST, "pieces of {size}");
    }
}
