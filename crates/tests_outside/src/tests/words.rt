use px_app::{ServeWords, WordsFault, read_serve_words};
use px_types::Mem;
use std::alloc::Global;

static WRONG: [&str; 26] = [
    "serve",
    "serve --socket s --out o --accept 64",
    "serve --header h --out o --accept 64",
    "serve --header h --socket s --accept 64",
    "serve --header h --socket s --out o",
    "serve --header h --socket s --out o --accept 0",
    "serve --header h --socket s --out o --accept 65536",
    "serve --header h --socket s --out o --accept sixty",
    "serve --header h --socket s --out o --accept",
    "serve --header h --socket s --out -o --accept 64",
    "serve --header  --socket s --out o --accept 64",
    "serve --header h --socket s --out o --accept 64 --history file",
    "serve --header h --socket s --out o --accept 64 --header h",
    "serve --header h --socket s --out o --accept 64 --tape --tape",
    "serve --header h --socket s --out o --accept 64 --tape=yes",
    "serve --header h --socket s --out o --accept 64 more",
    "serve --header h --socket s --out o --accept 64 --volume 1",
    "serve --header h --socket s --out o --accept 64 --source",
    "serve --header h --socket s --out o --accept 64 --source ",
    "serve --header h --socket s --out o --accept 64 --source -a",
    "serve --header h --socket s --out o --accept 64 --source=",
    "serve --header h --socket s --out o --accept 64 --source a\u{7f}",
    "serve --header h --socket s --out o --accept 64 --source a\t",
    "serve --header h --socket s --out o --accept 64 --source m --source m",
    "serve --header h --socket s --out o --accept 64 --source aaaaaaaabbbbbbbbccccccccddddddddeeeeeeeeffffffffgggggggghhhhhhhhi",
    "serve --help",
];

// The words of a line, with one blank between two of them.
fn words_of(alloc: Global, line: &str) -> Mem<Vec<String>> {
    let mut words = Vec::new(alloc);
    for word in line.split(' ') {
        words.push(String::from_str(alloc, word)?)?;
    }
    Ok(words)
}

fn read(alloc: Global, line: &str) -> Result<ServeWords, WordsFault> {
    let words = words_of(alloc, line)?;
    read_serve_words(alloc, words.as_slice())
}

// Whether the name of the default source is this one, or there is none.
fn is_source(said: &ServeWords, name: &str) -> bool {
    match &said.source {
        Some(source) => source.as_slice() == name.as_bytes(),
        None => name.is_empty(),
    }
}

// The links, the history and the tape in the options of a line, where its paths are `h`, `s` and `o`, and its source is `source`, or none where
// that is empty.
fn said(alloc: Global, line: &str, source: &str) -> Option<(u16, bool, bool)> {
    let Ok(said) = read(alloc, line) else {
        return None;
    };
    let named = is_source(&said, source)
        && said.options.header.as_slice() == b"h".as_slice()
        && said.options.socket.as_slice() == b"s".as_slice()
        && said.options.out.as_slice() == b"o".as_slice();
    named.then_some((said.options.accept, said.options.memory, said.tape))
}

// A line, the name of its default source, and its other options; clap alone takes the lines with `=` and with leading zeros.
const RIGHT: [(&str, &str, (u16, bool, bool)); 9] = [
    (
        "serve --header h --socket s --out o --accept 64",
        "",
        (64, false, false),
    ),
    (
        "serve --tape --accept 1 --out o --history memory --socket s --header h",
        "",
        (1, true, true),
    ),
    (
        "serve --history none --header h --tape --accept 65535 --socket s --out o",
        "",
        (65_535, false, true),
    ),
    (
        "serve --header=h --socket=s --out=o --accept=64",
        "",
        (64, false, false),
    ),
    (
        "serve --header h --socket s --out o --accept 007",
        "",
        (7, false, false),
    ),
    (
        "serve --header h --socket s --out o --accept 64 --source out.monitor",
        "out.monitor",
        (64, false, false),
    ),
    (
        "serve --source !~ --tape --history memory --accept 2 --out o --socket s --header h",
        "!~",
        (2, true, true),
    ),
    (
        "serve --header h --socket s --out o --accept 64 --source aaaaaaaabbbbbbbbccccccccddddddddeeeeeeeeffffffffgggggggghhhhhhhh",
        "aaaaaaaabbbbbbbbccccccccddddddddeeeeeeeeffffffffgggggggghhhhhhhh",
        (64, false, false),
    ),
    (
        "serve --header h --socket s --out o --accept 64 --source=-a",
        "-a",
        (64, false, false),
    ),
];

#[test]
fn words_are_read_in_any_order_or_wrong(rt: HostRuntime) {
    assert!(rt;
        RIGHT.iter().all(|(line, source, wanted)| said(rt.alloc(), line, source) == Some(*wanted))
            && WRONG.iter().all(|line| matches!(read(rt.alloc(), line), Err(WordsFault::Usage)))
    );
}
