//! The same devices on threads: the order of their entries is any, and what they come to is the same.

use super::*;
use app_thread::{Ending, RunEnd};
use att_base::{Gate, NoGate, Spot};
use std::sync::atomic::{AtomicU64, Ordering};
use std::thread::yield_now;

/// How often an actor looks for the others.
const LOOKS: u32 = 1_000_000;

/// A gate at which each of three actors waits for the others to come for the first time: a bit for each that has come,
/// and the next one if somebody has waited in vain.
#[derive(Drop)]
struct Meeting {
    here: AtomicU64,
}

impl Gate for Meeting {
    fn at(&self, actor: u32, _spot: Spot) {
        let mark = match actor {
            0 => 1,
            1 => 2,
            _ => 4,
        };
        self.here.fetch_or(mark, Ordering::SeqCst);
        for _ in 0..LOOKS {
            if self.here.load(Ordering::SeqCst) % 8 == 7 {
                return;
            }
            yield_now();
        }
        self.here.fetch_or(8, Ordering::SeqCst);
    }
}

/// Two applications that print nothing and exit with 0, under a challenge that locks what it has copied.
fn two(alloc: Global, cap: u64) -> Result<SharedDevice, Fail> {
    let apps = vec![in alloc; app(alloc, BASE + 48, 3)?, app(alloc, BASE + 52, 3)?]?;
    let mut image = vec![in alloc; 0u8; 64]?;
    image[..16].copy_from_slice(&PROGRAM);
    image[16..32].copy_from_slice(&PROGRAM);
    let plan = plan(alloc, apps, cap)?;
    let inc = challenge(Discipline::Inc, 0);
    let device = device(alloc, &plan, image, vec![in alloc; BASE, BASE + 16]?, inc)?;
    device.share(alloc).map_err(|_| "no memory".into())
}

/// Each actor makes an entry before any makes its second.
#[test]
fn actors_run_at_once(rt: HostRuntime) -> Result<(), Fail> {
    let meeting = Meeting {
        here: AtomicU64::new(0),
    };
    let outcome = two(rt.alloc(), 100)?.run_threads(&rt, &meeting);
    assert_eq!(rt; meeting.here.load(Ordering::SeqCst), 7);
    assert_eq!(rt; outcome.chronicle.length(), 14);
    assert_eq!(rt; outcome.apps.len(), 2);
    for end in outcome.apps.as_slice() {
        assert_eq!(rt; end.run.end, RunEnd::Ended(Ending::Exit(0)));
    }
    let Some(
        PassEnd::Done {
            report: _,
            note: None,
        },
    ) = outcome.passes.get(0)
    else {
        return Err("no report".into());
    };
    Ok(())
}

/// The history holds ten entries of fourteen.
#[test]
fn actors_meet_a_full_history(rt: HostRuntime) -> Result<(), Fail> {
    let outcome = two(rt.alloc(), 10)?.run_threads(&rt, &NoGate);
    assert_eq!(rt; outcome.chronicle.length(), 10);
    assert_eq!(rt; outcome.apps.len(), 2);
    assert_eq!(rt; outcome.passes.len(), 1);
    Ok(())
}
