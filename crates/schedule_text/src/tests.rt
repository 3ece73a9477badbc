use super::*;
use std::alloc::Global;
use std::process::Abort;
use std::test::Fail;

#[test]
fn runs_are_read_in_order(rt: HostRuntime) -> Result<(), Fail> {
    let text = b"0 5\n2 1000000\n1 1\n0 10\n";
    let runs = match read_schedule(rt.alloc(), text, 2) {
        Ok(runs) => runs,
        Err(_) => return Err("refused".into()),
    };
    assert_eq!(rt; runs.len(), 4);
    for (k, actor, turns) in [
        (0usize, 0u32, 5u32),
        (1, 2, 1_000_000),
        (2, 1, 1),
        (3, 0, 10),
    ] {
        assert_eq!(rt; runs.get(k), Some(&Run { actor, turns }), "{k}");
    }
    Ok(())
}

// Each row: the line at which the text is refused for two applications, 0 where it is a schedule.
const ROWS: [(u64, &str); 12] = [
    (0, ""),
    (0, "2 1000000\n"),
    (1, "00 1\n"),
    (1, "1 01\n"),
    (1, "1  1\n"),
    (1, "1 1\r\n"),
    (1, "1 1"),
    (2, "0 1\n3 1\n1 0\n"),
    (1, "1 0\n"),
    (1, "1 1000001\n"),
    (1, "18446744073709551616 1\n"),
    (2, "1 1\n\n1 1\n"),
];

fn expect(rt: &impl Abort, alloc: Global, text: &str, line: u64) {
    let found = match read_schedule(alloc, text.as_bytes(), 2) {
        Ok(_) => 0,
        Err(ScheduleFault::Line(number)) => number,
        Err(ScheduleFault::Memory) => 99_999,
    };
    assert_eq!(rt; found, line);
}

#[test]
fn the_first_line_that_fails_is_named(rt: HostRuntime) {
    for (line, text) in ROWS {
        expect(&rt, rt.alloc(), text, line);
    }
}

// So many lines of one text, and then another text.
fn lines(alloc: Global, count: u32, line: &str, last: &str) -> Result<String, Fail> {
    let mut text = String::new(alloc);
    for _ in 0..count {
        text.push_str(line)?;
    }
    text.push_str(last)?;
    Ok(text)
}

// 10,000 lines and 16,000,000 turns are the most.
#[test]
fn schedules_at_their_limits(rt: HostRuntime) -> Result<(), Fail> {
    for (count, line, last, refused) in [
        (10_000u32, "1 1\n", "", 0u64),
        (10_000, "1 1\n", "0 1\n", 10_001),
        (16, "1 1000000\n", "", 0),
        (15, "1 1000000\n", "0 999999\n1 2\n", 17),
    ] {
        let text = lines(rt.alloc(), count, line, last)?;
        expect(&rt, rt.alloc(), text.as_str(), refused);
    }
    Ok(())
}
