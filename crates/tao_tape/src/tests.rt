use crate::{KeyTape, ListTape, ScriptTape, Tape, xor_stream};
use std::process::Abort;
use std::test::Fail;
use tao_base::Numbers;

const RISING: [u8; 32] = [
    0, 1, 2, 3, 4, 5, 6, 7, 8, 9, 10, 11, 12, 13, 14, 15, 16, 17, 18, 19, 20, 21, 22, 23, 24, 25,
    26, 27, 28, 29, 30, 31,
];

// the first and the last of the keystreams in RFC 8439, appendix A.1, that have counter 0, and one that openssl gives
#[test]
fn keystream_vectors(rt: HostRuntime) {
    for (key, nonce, expected) in [
        (
            [0; 32],
            0,
            [0x76, 0xb8, 0xe0, 0xad, 0xa0, 0xf1, 0x3d, 0x90, 0x40, 0x5d],
        ),
        (
            [0; 32],
            0x0200_0000_0000_0000,
            [0xc2, 0xc6, 0x4d, 0x37, 0x8c, 0xd5, 0x36, 0x37, 0x4a, 0xe2],
        ),
        (
            RISING,
            9,
            [0xd1, 0xc7, 0x2b, 0x2a, 0x4f, 0x14, 0xa0, 0xd3, 0x9d, 0xdb],
        ),
    ] {
        let mut bytes = [0u8; 10];
        xor_stream(&key, nonce, &mut bytes);
        assert_eq!(rt; bytes, expected, "at {nonce}");
        xor_stream(&key, nonce, &mut bytes[..8]);
        assert_eq!(rt; bytes[7], 0);
        assert_eq!(rt; bytes[8], expected[8]);
    }
}

// the fourth word from here on
fn fourth<T: Tape>(rt: &impl Abort, tape: &mut T) -> u32 {
    for _ in 0..3 {
        assert!(rt; 0 < tape.left());
        tape.next();
    }
    assert!(rt; 0 < tape.left());
    tape.next()
}

#[test]
fn words_of_tapes(rt: HostRuntime) -> Result<(), Fail> {
    let alloc = rt.alloc();
    let mut tape = KeyTape::new([0; 32]);
    assert_eq!(rt; tape.left(), u64::MAX);
    for word in [2_917_185_654, 2_419_978_656, 3_848_953_152, 683_509_331] {
        assert!(rt; 0 < tape.left());
        assert_eq!(rt; tape.next(), word);
    }
    assert_eq!(rt; tape.left(), u64::MAX - 4);
    let words = Numbers::from_slice(alloc, &[7, 8, 9, 4_294_967_295])?;
    let mut tape = ListTape::new(words);
    assert_eq!(rt; fourth(&rt, &mut tape), 4_294_967_295);
    assert_eq!(rt; tape.left(), 0);
    let mut tape = ScriptTape::Key(KeyTape::new([0; 32]));
    assert_eq!(rt; fourth(&rt, &mut tape), 683_509_331);
    let words = Numbers::from_slice(alloc, &[4, 3, 2, 1])?;
    let mut tape = ScriptTape::Words(ListTape::new(words));
    assert_eq!(rt; fourth(&rt, &mut tape), 1);
    Ok(())
}
