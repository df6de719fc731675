//! Scripts and their transcripts, texts that break, and the longest ones.

use crate::tests::{ONE_READ, played, reads, sink_of, source_of};
use crate::{Kept, play_top};
use std::alloc::{AllocError, Global};
use std::test::Fail;
use tao_base::{Image, Source};

// scripts and their transcripts
static PLAYS: [(&str, &str); 7] = [
    ("tree 1 1 4 1 1\ntape 1 0\ndo 0 read 0\n", ONE_READ),
    (
        "  # one read\n\n  tree 1  1 4 1 1 \nform 1\ntape  1 0\n\ndo 0 read 0",
        ONE_READ,
    ),
    // without a tape the words are those of a key of zeros: 2917185654, 2419978656
    (
        "tree 1 1 4 1 1\ndo 0 read 0\n",
        "tree 1 1 4 1 1\nload 3\narrive 0 0 read 0\nfetch 0 0\ndone 0\nreply 0 0 00000000\nstore 1 4 1 2\nack 1\nscan\nblock 0 00000000\nend 0\n",
    ),
    (
        "tree 1 1 4 1 1\ntape 0\n",
        "tree 1 1 4 1 1\nload 3\nscan\nblock 0 00000000\nend 0\n",
    ),
    (
        "tree 2 2 4 2 1\ntape 0 3 2 1 2\nload 0 61616161\ndo 0 read 0\ndo 0 write 0 62626262\ndo 1 read 0\n",
        "tree 2 2 4 2 1\nfirst 0 61616161\nload 7\narrive 0 0 read 0\nfetch 0 0\ndone 0\nreply 0 0 61616161\nstore 1 8 1 2 4\nack 1\narrive 1 0 write 0 62626262\nfetch 1 2\ndone 1\nreply 1 0 61616161\nstore 2 11 1 3 6\nack 2\narrive 2 1 read 0\nfetch 2 1\ndone 2\nreply 2 1 62626262\nstore 3 14 1 2 5\nack 3\nscan\nblock 0 62626262\nblock 1 00000000\nend 0\n",
    ),
    (
        "tree 2 1 4 4 1\ntape 0 0 0 0 3\ndo 0 read 3\n",
        "tree 2 1 4 4 1\nload 7\narrive 0 0 read 3\nfetch 0 0\ndone 0\nreply 0 0 00000000\nstore 1 8 1 2 4\nack 1\nscan\nblock 0 00000000\nblock 1 00000000\nblock 2 00000000\nblock 3 00000000\nend 0\n",
    ),
    (
        "tree 2 1 4 1 1\ntape 4294967295 0\ndo 0 read 0\n",
        "tree 2 1 4 1 1\nload 7\narrive 0 0 read 0\nfetch 0 3\ndone 0\nreply 0 0 00000000\nstore 1 8 1 3 7\nack 1\nscan\nblock 0 00000000\nend 0\n",
    ),
];

#[test]
fn transcripts(rt: HostRuntime) -> Result<(), Fail> {
    for (script, text) in &PLAYS {
        let bytes = Image::from_slice(rt.alloc(), script.as_bytes())?;
        let (status, sink) = played(rt.alloc(), bytes, 999)?;
        let written = (status, sink.bytes());
        assert_eq!(rt; written, (0, text.as_bytes()), "at {script}");
    }
    Ok(())
}

// texts that break, or that can't be played yet, and the line and the kind that are told
static BROKEN: [(&str, &str); 40] = [
    ("", "1 Order"),
    ("\n# nothing\n", "3 Order"),
    ("tree 1 1 4 1 1\ntape\t0\n", "2 NotText"),
    ("tree 1 1 4 1 1\r\ntape 0\n", "1 NotText"),
    ("# caf\u{e9}\ntree 1 1 4 1 1\n", "1 NotText"),
    ("tree 1 1 4 1\n", "1 Word"),
    ("tree 1 1 4 1 1\ntwin\n", "2 Word"),
    ("tree 1 1 4 1 1\nform 3\n", "2 Word"),
    ("tree 1 1 4 1 1\ntape 0\ndo 0 add 0\n", "3 Word"),
    ("tree 1 1 4 1 1\ntape 4294967296\n", "2 Number"),
    ("tree 1 1 4 1 1\ntape 00\n", "2 Number"),
    ("tree 1 1 4 1 1\nload x 6161616\n", "2 Number"),
    ("tree 1 1 4 1 1\nload 0 6161616\n", "2 Hex"),
    ("tree 1 1 4 1 1\nkey 00\n", "2 Length"),
    ("tree 1 1 4 1 1\nload 7 616161\n", "2 Length"),
    (
        "tree 1 1 4 1 1\ntape 1 0\ndo 0 write 0 6161616161616161\n",
        "3 Length",
    ),
    ("tree 17 1 4 1 1\n", "1 Range"),
    ("tree 1 1 4 1 1\ntape 1 0\ndo 0 read 1\n", "3 Range"),
    ("tree 1 1 4 1 1\ntape 0 0\ndo 64 read 0\n", "3 Range"),
    ("tree 1 1 4 1 1\ntape 0\nread 0 2\n", "3 Range"),
    ("tree 1 1 4 1 1\ntape 0\nput 1 4\n", "3 Range"),
    ("tree 1 1 4 1 1\ntape 0\nput 1 0\n", "3 Range"),
    ("tree 1 1 4 1 1\ntree 17 1 4 1 1\n", "2 Range"),
    ("tree 1 1 4 1 1\ntree 1 1 4 1 1\n", "2 Order"),
    ("load 9 6161\ntree 1 1 4 1 1\n", "1 Order"),
    ("tree 1 1 4 1 1\nseal\n", "2 Order"),
    ("tree 1 1 4 1 1\nreopen 00\n", "2 Order"),
    ("tree 1 1 4 1 1\ntape 0\ntape 1\n", "3 Order"),
    (
        "tree 1 1 4 2 1\ntape 0 0\nload 1 61616161\nload 0 61616161\n",
        "4 Order",
    ),
    (
        "tree 1 1 4 1 1\ntape 1 0\ndo 0 read 0\nload 0 61616161\n",
        "4 Order",
    ),
    ("tree 1 1 4 2 1\ntape 0\n", "2 TapeShort"),
    ("tree 1 1 4 1 1\ntape 1\ndo 0 read 0\n", "3 TapeShort"),
    ("tree 1 1 4 1 2\ntape 0\nzzz\n", "3 Word"),
    ("tree 1 1 4 1 1\ntape 0 0\na 0 read 5\n", "3 Range"),
    ("tree 1 1 4 1 1\nzzz\n\u{7f}\n", "2 Word"),
    ("\ntree 1 1 4 1 2\ntape 0\n", "2 Unbuilt"),
    ("tree 1 1 4 1 1\n\nform turn\ntape 0\n", "3 Unbuilt"),
    (
        "tree 1 1 4 1 1\ntape 0 0 0\ndo 0 read 0\ndo 0 pad\n",
        "4 Unbuilt",
    ),
    ("tree 1 1 4 1 1\ntape 0 0\n# one\na 0 read 0\n", "4 Unbuilt"),
    ("tree 1 1 4 1 1\ntape 0 0\nack 1\n", "3 Unbuilt"),
];

#[test]
fn broken_texts(rt: HostRuntime) -> Result<(), Fail> {
    for (text, at) in &BROKEN {
        let bytes = Image::from_slice(rt.alloc(), text.as_bytes())?;
        let (status, sink) = played(rt.alloc(), bytes, 999)?;
        let line = format!(in rt.alloc(); "end 3 {at}\n")?;
        let written = (status, sink.bytes());
        assert_eq!(rt; written, (3, line.as_bytes()), "at {text}");
    }
    Ok(())
}

// as many operations as a session of these parameters may have, and one more
#[test]
fn longest_session(rt: HostRuntime) -> Result<(), Fail> {
    for (count, status, last) in [
        (65_536, 0, "block 0 00000000\nend 0\n"),
        (65_537, 3, "end 3 65539 Unbuilt\n"),
    ] {
        let script = reads(rt.alloc(), count)?;
        let (answer, sink) = played(rt.alloc(), script, 1 << 24)?;
        let told = (answer, sink.bytes().ends_with(last.as_bytes()));
        assert_eq!(rt; told, (status, true), "at {count}");
    }
    Ok(())
}

fn repeated(alloc: Global, byte: u8, len: usize) -> Result<Image, AllocError> {
    Ok(Image::from_vec(vec![in alloc; byte; len]?))
}

// comments as long as a text may be, one byte longer, and two: the last byte of them stays unread
#[test]
fn longest_text(rt: HostRuntime) -> Result<(), Fail> {
    let alloc = rt.alloc();
    for (more, text, unread) in [
        (0, "end 3 2 Order\n", 0),
        (1, "end 3 0 TooLong\n", 0),
        (2, "end 3 0 TooLong\n", 1),
    ] {
        let mut source = source_of(alloc, repeated(alloc, b'#', (1 << 24) + more)?, &[])?;
        let mut sink = sink_of(alloc, 99, &[])?;
        let mut kept = Kept { history: None };
        let status = play_top(alloc, &mut source, &mut sink, &mut kept);
        assert_eq!(rt;
            (status, source.read(&mut [0u8; 9]).ok()),
            (3, Some(unread))
        );
        let written = (more, sink.bytes());
        assert_eq!(rt; written, (more, text.as_bytes()));
    }
    Ok(())
}
