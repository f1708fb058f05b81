use px_types::ErrorCode::{Command, Exist, NotImplemented, Protocol};
use px_types::{ErrorCode, Mem, Text};
use std::alloc::Global;

// The numbers of PulseAudio's `pulse/def.h` that no session gets as an error.
const CODES: [(ErrorCode, u32); 4] = [
    (Command, 2),
    (Exist, 4),
    (Protocol, 7),
    (NotImplemented, 23),
];

fn joined(alloc: Global) -> Mem<Text> {
    let mut text = Text::copied(alloc, b"pulse")?;
    text.extend(b"_rw")?;
    Ok(Text::from_vec(text.into_vec()))
}

#[test]
fn codes_are_the_protocols_and_a_text_grows(rt: HostRuntime) {
    assert!(rt;
        CODES.iter().all(|(code, number)| code.code() == *number)
            && matches!(joined(rt.alloc()), Ok(text) if text.as_slice() == b"pulse_rw".as_slice())
    );
}
