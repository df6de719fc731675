ghost use Rattle.std.specs.Prelude.{◌^◌, ◌≤◌, length};
ghost use Rattle.tao_wire.specs.Frames.{content};

use crate::{
    Decoder, Message, WireFault, encode, fetch_frame, length_bytes, path_head, store_head,
    stored_content,
};
use std::alloc::Global;
use std::process::Abort;
use std::test::Fail;
use tao_base::{Block, Image, NoMemory};

const LIMIT: u32 = 1 << 25;

fn written(alloc: Global, message: &Message) -> Result<Image, NoMemory>
    requires { length (content message.now) ≤ 2 ^ 25 }
{
    let mut out = Image::new(alloc);
    encode(message, &mut out)?;
    Ok(out)
}

// The message is written so, and it is handed out with the last byte and not before.
fn check_frame<R: Abort>(
    rt: &R,
    alloc: Global,
    message: Message,
    frame: &[u8],
) -> Result<(), NoMemory>
    requires { length (content message) ≤ 2 ^ 25 }
{
    let out = written(alloc, &message)?;
    assert_eq!(rt; out.as_slice(), frame);
    let mut decoder = Decoder::new(alloc, LIMIT)?;
    let mut again = Image::new(alloc);
    for byte in frame {
        assert!(rt; matches!(decoder.next_message(), Ok(None)));
        assert!(rt; again.as_slice().is_empty());
        decoder.feed(&[*byte])?;
        drain(&mut decoder, &mut again)?;
    }
    assert_eq!(rt; again.as_slice(), frame);
    Ok(())
}

// Writes the messages that are handed out, up to the first answer that is none, and gives that one's fault.
fn drain(decoder: &mut Decoder, out: &mut Image) -> Result<Option<WireFault>, NoMemory> {
    for _ in 0..10 {
        match decoder.next_message() {
            Ok(Some(message)) => encode(&message, out)?,
            Ok(None) => return Ok(None),
            Err(fault) => return Ok(Some(fault)),
        }
    }
    Ok(None)
}

// The frames that are handed out of a stream in two pieces, and the fault behind them.
fn read_in_two(
    alloc: Global,
    front: &[u8],
    back: &[u8],
) -> Result<(Image, Option<WireFault>), NoMemory> {
    let mut decoder = Decoder::new(alloc, LIMIT)?;
    let mut out = Image::new(alloc);
    decoder.feed(front)?;
    drain(&mut decoder, &mut out)?;
    decoder.feed(back)?;
    let fault = drain(&mut decoder, &mut out)?;
    Ok((out, fault))
}

// However the stream is chunked into two, it gives these first frames and this fault.
fn check_stream<R: Abort>(
    rt: &R,
    alloc: Global,
    stream: &[u8],
    frames: usize,
    fault: Option<WireFault>,
) -> Result<(), NoMemory>
    requires { frames ≤ length stream.now }
{
    for at in 0..stream.len() {
        let (out, found) = read_in_two(alloc, &stream[..at], &stream[at..])?;
        assert_eq!(rt; out.as_slice(), &stream[..frames], "at {at}");
        assert_eq!(rt; found, fault, "at {at}");
    }
    Ok(())
}

#[test]
fn messages_without_a_list(rt: HostRuntime) -> Result<(), Fail> {
    let alloc = rt.alloc();
    check_frame(
        &rt,
        alloc,
        Message::Fetch { id: 2, leaf: 3 },
        b"\0\0\0\x0d\x01\0\0\0\0\0\0\0\x02\0\0\0\x03",
    )?;
    check_frame(
        &rt,
        alloc,
        Message::Stored { version: 258 },
        b"\0\0\0\x05\x04\0\0\x01\x02",
    )?;
    check_frame(
        &rt,
        alloc,
        Message::Get { block: 7 },
        b"\0\0\0\x05\x05\0\0\0\x07",
    )?;
    check_frame(
        &rt,
        alloc,
        Message::Refused { code: 3 },
        b"\0\0\0\x02\x08\x03",
    )?;
    Ok(())
}

#[test]
fn messages_with_a_list(rt: HostRuntime) -> Result<(), Fail> {
    let alloc = rt.alloc();
    let image = Image::from_slice(alloc, b"ab")?;
    check_frame(
        &rt,
        alloc,
        Message::Path { id: 2, image },
        b"\0\0\0\x0b\x02\0\0\0\0\0\0\0\x02ab",
    )?;
    let image = Image::from_slice(alloc, b"c")?;
    check_frame(
        &rt,
        alloc,
        Message::Store { version: 3, image },
        b"\0\0\0\x06\x03\0\0\0\x03c",
    )?;
    let value = Block::from_slice(alloc, b"aaaa")?;
    check_frame(
        &rt,
        alloc,
        Message::Put { block: 0, value },
        b"\0\0\0\x09\x06\0\0\0\0aaaa",
    )?;
    let value = Block::new(alloc);
    check_frame(&rt, alloc, Message::Value { value }, b"\0\0\0\x01\x07")?;
    Ok(())
}

// Whether the frame of a Get is handed out at this limit, and the fault.
fn get_at(alloc: Global, limit: u32) -> Result<(bool, Option<WireFault>), NoMemory>
    requires low { 1 ≤ limit }
    requires high { limit ≤ 2 ^ 25 }
{
    let mut decoder = Decoder::new(alloc, limit)?;
    decoder.feed(b"\0\0\0\x05\x05\0\0\0\x07")?;
    let mut out = Image::new(alloc);
    let fault = drain(&mut decoder, &mut out)?;
    Ok((out.as_slice().len() == 9, fault))
}

// a frame at the limit, and one above it
#[test]
fn frames_at_the_limit(rt: HostRuntime) -> Result<(), Fail> {
    let alloc = rt.alloc();
    assert_eq!(rt; get_at(alloc, 5)?, (true, None));
    assert_eq!(rt; get_at(alloc, 4)?, (false, Some(WireFault::Long)));
    Ok(())
}

// a faulty frame alone, and behind two good frames
#[test]
fn faulty_frames(rt: HostRuntime) -> Result<(), Fail> {
    let alloc = rt.alloc();
    for (stream, frames, fault) in [
        (b"\x02\0\0\x01".as_slice(), 0, Some(WireFault::Long)),
        (b"\x02\0\0\0".as_slice(), 0, None),
        (b"\xff\xff\xff\xff".as_slice(), 0, Some(WireFault::Long)),
        (b"\0\0\0\0".as_slice(), 0, Some(WireFault::Body)),
        (b"\0\0\0\x01\x09".as_slice(), 0, Some(WireFault::Kind)),
        (b"\0\0\0\x02\x09".as_slice(), 0, None),
        (b"\0\0\0\x02\0\x05".as_slice(), 0, Some(WireFault::Kind)),
        (b"\0\0\0\x04\x05\0\0\0".as_slice(), 0, Some(WireFault::Body)),
        (
            b"\0\0\0\x06\x05\0\0\0\0\0".as_slice(),
            0,
            Some(WireFault::Body),
        ),
        (b"\0\0\0\x03\x03\0\0".as_slice(), 0, Some(WireFault::Body)),
        (b"\0\0\0\x01\x08".as_slice(), 0, Some(WireFault::Body)),
        (b"\0\0\0\x02\x08\x03\0\0\0\x01\x07\0\0".as_slice(), 11, None),
        (
            b"\0\0\0\x02\x08\x03\0\0\0\x01\x07\0\0\0\0\0".as_slice(),
            11,
            Some(WireFault::Body),
        ),
        (
            b"\0\0\0\x02\x08\x03\0\0\0\x01\x07\0\0\0\x01\x09z".as_slice(),
            11,
            Some(WireFault::Kind),
        ),
    ] {
        assert!(rt; frames <= stream.len());
        check_stream(&rt, alloc, stream, frames, fault)?;
    }
    Ok(())
}

#[test]
fn numbers_of_faults(rt: HostRuntime) -> Result<(), Fail> {
    let faults = [
        WireFault::Long as u8,
        WireFault::Kind as u8,
        WireFault::Body as u8,
        WireFault::Memory as u8,
    ];
    assert_eq!(rt; faults.as_slice(), [1, 2, 3, 4].as_slice());
    Ok(())
}

// a length field at the limit and one above it, behind which nothing comes: the buffer stays as it was preallocated
#[test]
fn promised_bytes_take_no_memory(rt: HostRuntime) -> Result<(), Fail> {
    let alloc = rt.alloc();
    for (field, fault) in [
        (LIMIT, None),
        (LIMIT + 1, Some(WireFault::Long)),
        (u32::MAX, Some(WireFault::Long)),
    ] {
        let mut decoder = Decoder::new(alloc, LIMIT)?;
        let capacity = decoder.capacity();
        assert!(rt; capacity < 1024, "{capacity} bytes preallocated");
        decoder.feed(&length_bytes(field))?;
        let found = match decoder.next_message() {
            Ok(_) => None,
            Err(fault) => Some(fault),
        };
        assert_eq!(rt; found, fault, "at {field}");
        assert_eq!(rt; decoder.capacity(), capacity, "at {field}");
    }
    Ok(())
}

#[test]
fn heads_of_frames(rt: HostRuntime) -> Result<(), Fail> {
    assert_eq!(rt;
        fetch_frame(2, 3).as_slice(),
        b"\0\0\0\x0d\x01\0\0\0\0\0\0\0\x02\0\0\0\x03".as_slice()
    );
    assert_eq!(rt;
        store_head(3, 1).as_slice(),
        b"\0\0\0\x06\x03\0\0\0\x03".as_slice()
    );
    assert_eq!(rt;
        path_head(2).as_slice(),
        b"\x02\0\0\0\0\0\0\0\x02".as_slice()
    );
    assert_eq!(rt;
        stored_content(258).as_slice(),
        b"\x04\0\0\x01\x02".as_slice()
    );
    Ok(())
}
