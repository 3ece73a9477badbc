use super::*;
use std::process::Abort;
use std::test::Fail;

// Blocks 3 and 5 of memory are attested, each a range of its own. A row has what a discipline locks before
// Start, and after Start, the two Copies, End and Release: block 3 and block 5.
type Row = [[bool; 2]; 6];

const NONE: [bool; 2] = [false, false];

const LOW: [bool; 2] = [true, false];

const HIGH: [bool; 2] = [false, true];

const BOTH: [bool; 2] = [true, true];

const LIST: [Range; 2] = [
    Range {
        first: 3,
        attested: 1,
    },
    Range {
        first: 5,
        attested: 1,
    },
];

fn expect_locks(rt: &impl Abort, plan: &Plan, want: [bool; 2]) {
    assert_eq!(rt; [plan.is_locked(3), plan.is_locked(5)], want);
    assert!(rt; !plan.is_locked(2));
    assert!(rt; !plan.is_locked(4));
    assert!(rt; !plan.is_locked(6));
}

fn expect_pass(rt: &impl Abort, ranges: Ranges, discipline: Discipline, row: Row) {
    let mut plan = Plan::new(ranges);
    assert_eq!(rt; plan.next(), PlanStep::Start);
    expect_locks(rt, &plan, row[0]);
    plan.start(discipline);
    assert_eq!(rt; plan.next(), PlanStep::Copy(3));
    expect_locks(rt, &plan, row[1]);
    plan.copied();
    assert_eq!(rt; plan.next(), PlanStep::Copy(5));
    expect_locks(rt, &plan, row[2]);
    plan.copied();
    assert_eq!(rt; plan.next(), PlanStep::End);
    expect_locks(rt, &plan, row[3]);
    plan.ended();
    expect_locks(rt, &plan, row[4]);
    if discipline.extended() {
        assert_eq!(rt; plan.next(), PlanStep::Release);
        plan.released();
    }
    assert_eq!(rt; plan.next(), PlanStep::Start);
    expect_locks(rt, &plan, row[5]);
}

// The table of the five disciplines: All-Lock holds from Start to End, All-Lock-Ext from Start to
// Release, Dec-Lock from Start to the block's own Copy, Inc-Lock from the block's own Copy to End,
// Inc-Lock-Ext from the block's own Copy to Release.
#[test]
fn each_discipline_locks_as_its_table_says(rt: HostRuntime) -> Result<(), Fail> {
    let ranges = Ranges::new(&LIST).ok_or("no ranges")?;
    expect_pass(
        &rt,
        ranges,
        Discipline::All,
        [NONE, BOTH, BOTH, BOTH, NONE, NONE],
    );
    expect_pass(
        &rt,
        ranges,
        Discipline::AllExt,
        [NONE, BOTH, BOTH, BOTH, BOTH, NONE],
    );
    expect_pass(
        &rt,
        ranges,
        Discipline::Dec,
        [NONE, BOTH, HIGH, NONE, NONE, NONE],
    );
    expect_pass(
        &rt,
        ranges,
        Discipline::Inc,
        [NONE, NONE, LOW, BOTH, NONE, NONE],
    );
    expect_pass(
        &rt,
        ranges,
        Discipline::IncExt,
        [NONE, NONE, LOW, BOTH, BOTH, NONE],
    );
    others_leave_plan();
    order_gives_next_step();
    Ok(())
}

// The first blocks and sizes of three ranges: their indexes fill more than one word of bits.
const THREE: [(u32, u32); 3] = [(1, 2), (5, 1), (7, 64)];

// What the table says of the block, from what the pass has come to.
fn is_locked_by_table(
    discipline: Option<Discipline>,
    copied: u32,
    ended: bool,
    block: u32,
) -> bool {
    let mut index = 0;
    let mut found = None;
    for (first, attested) in THREE {
        for k in 0..attested {
            if block == first + k {
                found = Some(index);
            }
            index = u32::wrapping_add(index, 1);
        }
    }
    match (found, discipline) {
        (None, _) | (_, None) => false,
        (_, Some(Discipline::All)) => !ended,
        (_, Some(Discipline::AllExt)) => true,
        (Some(index), Some(Discipline::Dec)) => !ended && copied <= index,
        (Some(index), Some(Discipline::Inc)) => !ended && index < copied,
        (Some(index), Some(Discipline::IncExt)) => index < copied,
    }
}

#[test]
fn passes_lock_as_the_table_says(rt: HostRuntime) -> Result<(), Fail> {
    let list = THREE.map(|(first, attested)| Range { first, attested });
    let mut plan = Plan::new(Ranges::new(&list).ok_or("no ranges")?);
    let mut random = 1_u32;
    let mut discipline = None;
    let mut copied = 0;
    let mut ended = false;
    for _ in 0..350 {
        match plan.next() {
            PlanStep::Start => {
                random = random.wrapping_mul(1_664_525).wrapping_add(1_013_904_223);
                let chosen = Discipline::from_code((random >> 24) as u8 % 5 + 1).ok_or(
                    "no discipline",
                )?;
                plan.start(chosen);
                discipline = Some(chosen);
                copied = 0;
                ended = false;
            }
            PlanStep::Copy(_) => {
                plan.copied();
                copied = u32::wrapping_add(copied, 1);
            }
            PlanStep::End => {
                plan.ended();
                ended = true;
            }
            PlanStep::Release => {
                plan.released();
                discipline = None;
            }
        }
        for block in 0..73 {
            let want = is_locked_by_table(discipline, copied, ended, block);
            assert_eq!(rt;
                plan.is_locked(block),
                want,
                "block {block} after {copied} copies"
            );
        }
    }
    Ok(())
}

#[test]
fn ranges_are_told_by_number_and_index(rt: HostRuntime) -> Result<(), Fail> {
    let list = THREE.map(|(first, attested)| Range { first, attested });
    let ranges = Ranges::new(&list).ok_or("no ranges")?;
    let same = ranges;
    assert_eq!(rt; ranges, same);
    assert_eq!(rt; [ranges.count(), ranges.total(), ranges.end()], [3, 67, 71]);
    assert_eq!(rt;
        [ranges.block(0), ranges.block(2), ranges.block(66)],
        [1, 5, 70]
    );
    assert_eq!(rt;
        [ranges.index(2), ranges.index(3), ranges.index(7)],
        [Some(1), None, Some(3)]
    );
    let touching = [
        Range {
            first: 1,
            attested: 2,
        },
        Range {
            first: 3,
            attested: 1,
        },
    ];
    assert!(rt; Ranges::new(&touching).is_none());
    assert!(rt; Ranges::new(&[]).is_none());
    assert!(rt;
        Ranges::new(&[Range {
            first: 4095,
            attested: 2
        }])
        .is_none()
    );
    assert!(rt;
        Ranges::new(&[Range {
            first: u32::MAX,
            attested: u32::MAX
        }])
        .is_none()
    );
    Ok(())
}
