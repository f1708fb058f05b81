use px_block::{Fresh, Mem};
use px_frame::{Body, Decoder, decode, one_reading, reading_from_the_front, write_data};
use std::alloc::Global;

// A descriptor of a control packet with length 0.
const ZERO: &[u8] = b"\0\0\0\0\xff\xff\xff\xff\0\0\0\0\0\0\0\0\0\0\0\0";

// Whether a decoder returns this error for a piece.
fn says(alloc: Global, decoder: &mut Decoder, piece: &[u8], wanted: &str) -> bool {
    match decoder.feed(piece, &mut Fresh::new(alloc)) {
        Ok(_) => false,
        Err(error) => matches!(format!(in alloc; "{error}"), Ok(text) if text.as_str() == wanted),
    }
}

#[test]
fn a_fault_stands(rt: HostRuntime) {
    one_reading();
    reading_from_the_front();
    let mut decoder = Decoder::new(rt.alloc());
    let again = "failed before: a frame of length 0 at byte 0";
    assert!(rt;
        says(
            rt.alloc(),
            &mut decoder,
            ZERO,
            "a frame of length 0 at byte 0"
        ) && says(rt.alloc(), &mut decoder, b"\0\0\0\x02", again)
            && says(rt.alloc(), &mut decoder, b"", again)
    );
}

fn data_is_framed(alloc: Global) -> Mem<bool> {
    let data = write_data(alloc, 7, -2, 1, b"ab")?.into_vec();
    Ok(
        data.as_slice()
            == b"\0\0\0\x02\0\0\0\x07\xff\xff\xff\xff\xff\xff\xff\xfe\0\0\0\x01ab".as_slice(),
    )
}

// A write of 16 MiB comes whole, in 256 blocks.
fn longest(alloc: Global) -> Mem<bool> {
    let payload = vec![in alloc; 7u8; 16_777_216]?;
    let packet = write_data(alloc, 5, 0, 0, &payload)?;
    let answer = decode(alloc, &[packet.bytes()], &mut Fresh::new(alloc));
    Ok(match &answer {
        Ok(frames) => match frames.as_slice() {
            [frame] => matches!(&frame.body, Body::Write { bytes, .. } if bytes.count() == 256),
            _ => false,
        },
        Err(_) => false,
    })
}

#[test]
fn what_is_written_is_one_frame(rt: HostRuntime) {
    let alloc = rt.alloc();
    assert!(rt; matches!(data_is_framed(alloc), Ok(true)) && matches!(longest(alloc), Ok(true)));
}
