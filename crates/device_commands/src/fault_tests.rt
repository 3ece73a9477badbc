//! Each call on files fails in turn in a run of two applications: nothing is written where a read fails, and where a call that
//! writes fails, the files before that one are whole, that one has a front of its bytes or isn't there, and no other is touched.

use crate::prepare_sched;
use crate::sched_tests::{FIRST, INC, Prepared, REPORT, TRACE, TWO_APPS, common, put};
use att_base::{FileFault, MemFiles};
use command_plans::Stop;
use std::alloc::Global;
use std::process::Abort;
use std::test::Fail;

// How many files are read: the device file, the schedule, the key, two executables, a challenge and two images.
const READS: u64 = 8;

fn write_all(alloc: Global, output: &Prepared, files: &mut MemFiles) -> Result<(), FileFault> {
    for file in output.files() {
        file.write_to(alloc, files)?;
    }
    Ok(())
}

// The files behind such a run whose call of this number on files fails, and whether all were written.
fn run_failing(alloc: Global, call: u64) -> Result<(MemFiles, bool), Fail> {
    let mut list = common(alloc, TWO_APPS, "0 1\n2 2\n0 4\n1 2\n0 1\n")?;
    put(alloc, &mut list, "a.elf", FIRST)?;
    put(alloc, &mut list, "c1", INC)?;
    let mut files = MemFiles::new(alloc, list, [call].to_vec(alloc)?);
    let output = match prepare_sched(alloc, &mut files, "dev", "s") {
        Ok(output) => output,
        Err(stop) => {
            if matches!(&stop, Stop::Fault) {
                return Ok((files, false));
            }
            return Err("no output".into());
        }
    };
    match write_all(alloc, &output, &mut files) {
        Ok(()) => Ok((files, true)),
        Err(FileFault::Failed) => Ok((files, false)),
        Err(FileFault::Memory) => Err("no memory".into()),
    }
}

// Whether all is written: of the files, in the order in which they are written, the first are whole, the next has a front of its
// bytes or isn't there, and none behind it is there.
fn is_whole(rt: &impl Abort, files: &MemFiles, call: u64) -> bool {
    let mut is_cut = false;
    for (name, bytes) in [
        ("t", TRACE.as_bytes()),
        ("a.out", b"".as_slice()),
        ("b.out", b"".as_slice()),
        ("r1", REPORT),
    ] {
        let held = files.bytes_of(name);
        assert!(rt; !is_cut || held.is_none(), "{name} after call {call}");
        if let Some(held) = held {
            assert!(rt; bytes.starts_with(held), "{name} after call {call}");
        }
        is_cut = is_cut || held != Some(bytes);
    }
    assert!(rt; files.bytes_of("n1").is_none(), "call {call}");
    !is_cut
}

#[test]
fn behind_a_fault_nothing_is_written(rt: HostRuntime) -> Result<(), Fail> {
    let alloc = rt.alloc();
    for call in 0..18 {
        let (files, is_written) = run_failing(alloc, call)?;
        assert_eq!(rt; is_whole(&rt, &files, call), is_written, "call {call}");
        assert_eq!(rt; is_written, call >= 16, "call {call}");
        assert_eq!(rt; files.bytes_of("t").is_some(), call > READS, "call {call}");
    }
    Ok(())
}

// The trace's head with the image has 175 bytes, its entries 232, its end 7. An append that fails has written half of its piece.
#[test]
fn a_part_of_the_trace_that_fails_is_its_last(rt: HostRuntime) -> Result<(), Fail> {
    let alloc = rt.alloc();
    for (call, count) in [(9, 87), (10, 291), (11, 410)] {
        let (files, is_written) = run_failing(alloc, call)?;
        assert!(rt; !is_written, "call {call}");
        assert_eq!(rt;
            files.bytes_of("t"),
            TRACE.as_bytes().get(..count),
            "call {call}"
        );
        assert!(rt; files.bytes_of("a.out").is_none() && files.bytes_of("r1").is_none());
    }
    Ok(())
}
