//! What no clause says of `run_script`: what it writes with ample memory, and that behind a fault nothing is tried again. The
//! tag is that of a program that shares no code with this one.

use crate::{SCRIPT_LIMIT, ScriptEnd, run_script};
use att_base::{MemSink, MemSource};
use std::alloc::{AllocError, Global};
use std::process::Abort;
use std::test::Fail;

// A script of eight steps, of whose history there are seven entries.
const FILLS: &str =
    "memory 80000000 16 4 7\nattest 0 4\nkey 6b6579\nstart all 7 000102030405060708090a0b0c0d0e0f\ncopy\ncopy\ncopy\ncopy\nend\ntick\ntick\n";

const LINES: &str =
    "1 start\n2 copy 0\n3 copy 1\n4 copy 2\n5 copy 3\n6 end 01f92e63122daaa5ace2ac8ec1073612262c1c4783e5e050ded70df31e70d1ec\n7 tick\nfull 7\n";

// The number of a call that is never made.
const NEVER: u64 = 1_000_000;

// Runs the text from a stream to a stream, 16 bytes a call, of which these calls fail; compares how it ends and what is held.
fn expect(
    rt: &impl Abort,
    alloc: Global,
    text: &[u8],
    fails: (u64, u64),
    want: (ScriptEnd, &str),
) -> Result<(), AllocError> {
    let mut input = MemSource::new(text.to_vec(alloc)?, 16, [fails.0].to_vec(alloc)?);
    let mut out = MemSink::new(alloc, 4096, 16, [fails.1].to_vec(alloc)?)?;
    assert_eq!(rt; run_script(alloc, &mut input, &mut out), want.0);
    assert_eq!(rt; out.held(), want.1.as_bytes());
    Ok(())
}

#[test]
fn each_end_is_told(rt: HostRuntime) -> Result<(), Fail> {
    let alloc = rt.alloc();
    let text = FILLS.as_bytes();
    let fits = FILLS.replace(alloc, "tick\ntick\n", "tick\n")?;
    let done = LINES.replace(alloc, "full 7", "entries 7")?;
    let lines = done.as_str();
    let wrong = FILLS.replace(alloc, "tick\n", "tock\n")?;
    let never = (NEVER, NEVER);
    expect(&rt, alloc, text, never, (ScriptEnd::Full(7), LINES))?;
    expect(&rt, alloc, fits.as_bytes(), never, (ScriptEnd::Done, lines))?;
    expect(
        &rt,
        alloc,
        wrong.as_bytes(),
        never,
        (ScriptEnd::BadLine(10), ""),
    )?;
    expect(&rt, alloc, b"", never, (ScriptEnd::BadLine(1), ""))?;
    Ok(())
}

// The ninth call on the input finds its end.
#[test]
fn behind_a_fault_nothing_is_tried_again(rt: HostRuntime) -> Result<(), Fail> {
    let alloc = rt.alloc();
    for call in 0..9 {
        let want = (ScriptEnd::ReadFailed, "");
        expect(&rt, alloc, FILLS.as_bytes(), (call, NEVER), want)?;
    }
    for call in 0..9 {
        let front = LINES.get(..(call as usize).saturating_mul(16));
        let want = (ScriptEnd::WriteFailed, front.ok_or("no front")?);
        expect(&rt, alloc, FILLS.as_bytes(), (NEVER, call), want)?;
    }
    Ok(())
}

// A text of 4 MiB is tried, and one byte more is not.
#[test]
fn the_limit_is_4_mib(rt: HostRuntime) -> Result<(), Fail> {
    let alloc = rt.alloc();
    for (count, want) in [
        (SCRIPT_LIMIT, ScriptEnd::BadLine(2)),
        (SCRIPT_LIMIT + 1, ScriptEnd::TooLong),
    ] {
        let text = vec![in alloc; b'#'; count as usize]?;
        let mut input = MemSource::new(text, 65_536, Vec::new(alloc));
        let mut out = MemSink::new(alloc, 16, 16, Vec::new(alloc))?;
        assert_eq!(rt; run_script(alloc, &mut input, &mut out), want);
        assert!(rt; out.held().is_empty());
    }
    Ok(())
}
