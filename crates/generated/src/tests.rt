//! What no clause says: that the calls succeed with ample memory. The numbers and the tags are those of a program that shares
//! no code with this one.

use super::*;
use device::{Outcome, PassEnd};
use report::{Note, Report};
use sched::run_schedule;
use std::process::Abort;
use std::test::Fail;

// Of each measurement of the run of 1 the places of Start and End, that of Release or 0, and the tag.
const MEASUREMENTS: [(u64, u64, u64, &[u8; 32]); 5] = [
    (
        1135,
        1311,
        0,
        b"\x37\xed\xf5\xaf\x55\xbc\x1f\xa3\x7c\x67\x9b\x3e\x58\x9f\x9f\x8f\xc9\x90\x40\x50\x08\x35\xaf\xc2\x9e\x86\xde\xb1\x52\x33\x30\x2f",
    ),
    (
        2181,
        2633,
        2780,
        b"\xf1\xee\x44\x52\x1f\xbf\x4f\x9a\xa6\x07\x0e\x73\x91\xf9\x13\xba\x78\x31\xeb\x53\x67\xd4\x15\xe1\xd3\x8d\x81\xc4\x46\x03\x7d\x0b",
    ),
    (
        3292,
        3634,
        0,
        b"\xec\x9e\x2b\x68\x1e\x91\xf1\x19\x2a\xd3\xba\xb7\xd5\xd8\x52\x8e\xab\x31\xc1\x01\xdb\xa7\x84\x3d\x49\x25\xf7\xd5\x3d\xa4\xd5\x3a",
    ),
    (
        4038,
        4271,
        0,
        b"\xd8\x56\xa5\x9a\x11\xff\x63\x46\x2a\xeb\x55\x45\xe2\x59\xc4\xaa\x67\xf5\xf3\xcf\xda\xee\x70\x55\xf2\x1f\x7a\x6f\x8c\x23\xc7\xb7",
    ),
    (
        4579,
        5066,
        5185,
        b"\xf8\x3a\x9c\x29\x09\x9c\x51\x4d\x51\xd0\xbe\x60\x9b\x3a\x12\x1d\x2d\xc4\xdd\xc7\x34\xbb\xdc\x47\x88\x4b\xc9\xb3\x81\xe4\x3c\x08",
    ),
];

// How often each application of it waits for a lock.
const WAITS: [u64; 8] = [107, 273, 146, 134, 0, 0, 0, 0];

// A number, the first and the last run of its schedule with actor and turns, and all turns together.
const SCHEDULES: [(u64, (u32, u32), (u32, u32), u64); 3] = [
    (0, (5, 14), (0, 12), 33725),
    (1, (0, 14), (0, 12), 34464),
    (u64::MAX, (4, 14), (0, 13), 33721),
];

fn expect_done(
    rt: &impl Abort,
    report: &Report,
    note: Option<Note>,
    (start, end, release, tag): (u64, u64, u64, &[u8; 32]),
) {
    assert_eq!(rt; report.start, start);
    assert_eq!(rt; report.end, end);
    assert!(rt; report.tag == *tag);
    let released = match note {
        Some(note) => note.release,
        None => 0,
    };
    assert_eq!(rt; released, release);
}

fn expect_measurements(rt: &impl Abort, outcome: &Outcome) -> Result<(), Fail> {
    assert_eq!(rt; outcome.passes.len(), MEASUREMENTS.len());
    for (end, want) in outcome.passes.as_slice().iter().zip(MEASUREMENTS) {
        match *end {
            PassEnd::Done { report, note } => expect_done(rt, &report, note, want),
            PassEnd::Full { .. } | PassEnd::NotStarted => return Err("cut".into()),
        }
    }
    Ok(())
}

#[test]
fn the_run_of_1(rt: HostRuntime) -> Result<(), Fail> {
    let Generated { device, schedule } = generate(rt.alloc(), 1)?;
    let outcome = run_schedule(device, schedule.as_slice());
    assert_eq!(rt; outcome.chronicle.length(), 95_132);
    assert_eq!(rt; outcome.apps.len(), WAITS.len());
    for (app, waits) in outcome.apps.as_slice().iter().zip(WAITS) {
        assert_eq!(rt; app.run.waits, waits);
    }
    expect_measurements(&rt, &outcome)
}

#[test]
fn the_schedules_of_numbers(rt: HostRuntime) -> Result<(), Fail> {
    for (number, first, last, turns) in SCHEDULES {
        let Generated { schedule, .. } = generate(rt.alloc(), number)?;
        let runs = schedule.as_slice();
        assert_eq!(rt; runs.len(), 4000);
        assert_eq!(rt; (runs[0].actor, runs[0].turns), first);
        assert_eq!(rt; (runs[3999].actor, runs[3999].turns), last);
        let mut sum = 0u64;
        for run in runs {
            sum = sum.wrapping_add(u64::from(run.turns));
        }
        assert_eq!(rt; sum, turns);
    }
    Ok(())
}
