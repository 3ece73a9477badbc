//! The program `attest`: the command line and the standard streams, handed to the proved call of the same name.
#![tactic(auto)]

use att_base::{NoGate, StdErr, StdFiles, StdSink, StdSource, Words};
use attest_top::{Status, attest};
use std::env;
use std::io::ErrorKind;
use std::process::ExitCode;

// The words after the program's name, or the status where they cannot be had.
fn words_of(rt: &HostRuntime) -> Result<Words, Status> {
    let mut words = Words::new(rt.alloc());
    let mut is_name = true;
    let given = match env::args(rt) {
        Ok(given) => given,
        Err(e) if e.kind() == ErrorKind::OutOfMemory => return Err(Status::Memory),
        Err(_) => return Err(Status::OutsideFault),
    };
    for word in given {
        if is_name {
            is_name = false;
        } else if words.push(word.as_str()).is_err() {
            return Err(Status::Memory);
        }
    }
    Ok(words)
}

fn main(rt: HostRuntime) -> ExitCode {
    let status = match words_of(&rt) {
        Ok(words) => attest(
            &rt,
            rt.alloc(),
            &words,
            &mut StdFiles::new(&rt),
            &mut StdSource::new(rt.stdin()),
            &mut StdSink::new(rt.stdout()),
            &mut StdErr::new(rt.stderr()),
            &NoGate,
        ),
        Err(status) => status,
    };
    ExitCode::from(status.code())
}
