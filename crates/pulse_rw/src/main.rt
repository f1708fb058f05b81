//! The program: it makes the real ends over standard input, output and error and the real host, runs the words of its command line, and
//! exits with the status's code.
#![tactic(auto)]

use px_app::{Ending, report, run};
use px_host::{Reading, SystemHost, Writing};
use std::alloc::{AllocError, Global};
use std::env;
use std::io::ErrorKind;
use std::process::ExitCode;

// The words after the program's own name. Words that aren't text are wrong words, as none are; want of memory is an error.
fn words(rt: &HostRuntime, alloc: Global) -> Result<Vec<String>, AllocError> {
    let mut words = Vec::new(alloc);
    match env::args(rt) {
        Ok(args) => {
            for word in args.skip(1) {
                words.push(word)?;
            }
            Ok(words)
        }
        Err(error) if error.kind() == ErrorKind::OutOfMemory => Err(AllocError),
        Err(_) => Ok(words),
    }
}

fn main(rt: HostRuntime) -> ExitCode {
    let mut input = Reading::new(rt.stdin());
    let mut output = Writing::new(rt.stdout());
    let mut log = Writing::new(rt.stderr());
    let mut host = SystemHost::new(rt.alloc(), rt);
    let status = match words(&rt, rt.alloc()) {
        Ok(words) => run(&rt, &words, &mut input, &mut output, &mut log, &mut host),
        Err(_) => report(rt.alloc(), Ending::Memory, &mut log),
    };
    ExitCode::from(status.code())
}
