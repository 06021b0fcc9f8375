//! Plans test decks for logic and accuracy testing of voting machines.
#![tactic(auto)]

use lat_shelf::{FileShelf, OutSink};
use lat_top::{Status, run};
use std::env;
use std::io::ErrorKind;
use std::process::ExitCode;

// The code of want of memory, and that of words that are no text.
const MEMORY: u8 = 1;

const WORDS: u8 = 2;

// The words after the program's name, or the code to end with.
fn words(rt: &HostRuntime) -> Result<Vec<String>, u8> {
    let args = match env::args(rt) {
        Ok(args) => args,
        Err(e) if e.kind() == ErrorKind::OutOfMemory => return Err(MEMORY),
        Err(_) => return Err(WORDS),
    };
    let mut words = Vec::new(rt.alloc());
    for word in args.skip(1) {
        if words.push(word).is_err() {
            return Err(MEMORY);
        }
    }
    Ok(words)
}

// Writes the line of a status to standard error, where there is memory for it.
fn print_line(rt: &HostRuntime, status: Status) {
    if let Ok(line) = status.line(rt.alloc()) {
        if let Ok(text) = str::from_utf8(&line) {
            let _ = eprint!(rt; "{text}");
        }
    }
}

fn main(rt: HostRuntime) -> ExitCode {
    match words(&rt) {
        Ok(words) => {
            let status = run(
                rt.alloc(),
                &words,
                &mut FileShelf::new(&rt),
                &mut OutSink::new(&rt),
            );
            if status.code() != 0 {
                print_line(&rt, status);
            }
            ExitCode::from(status.code())
        }
        Err(code) => {
            if code == WORDS {
                let _ = eprint!(&rt; "words: not text\n");
            }
            ExitCode::from(code)
        }
    }
}
