use super::*;
use block_memory::Geometry;
use lock_plan::Range;
use std::alloc::Global;
use std::process::Abort;
use std::test::Fail;

const FILE: &str =
    "base = 0x80000000\nblock = 256\nblocks = 64\nfirst = 0\nattested = 16\nkey = \"key.bin\"\nlast = 0\ncap = 200000\ntrace = \"trace.txt\"\nimages = [\"code.img\"]\n[[app]]\nfile = \"a.elf\"\nconsole = \"a.out\"\nstack = 0x80002800\nfuel = 10000\n[[app]]\nfile = \"b.elf\"\nconsole = \"b.out\"\nstack = 0x80003800\nfuel = 10000\n[[challenge]]\nfile = \"c1.bin\"\nreport = \"r1.bin\"\nnote = \"n1.bin\"\n[[challenge]]\nfile = \"c2.bin\"\nreport = \"r2.bin\"\nnote = \"n2.bin\"\n[[challenge]]\nfile = \"c3.bin\"\nreport = \"r3.bin\"\nnote = \"n3.bin\"\n";

fn plan(alloc: Global, text: &str) -> Result<DevicePlan, Fail> {
    match read_device(alloc, text.as_bytes()) {
        Ok(plan) => Ok(plan),
        Err(_) => Err("refused".into()),
    }
}

#[test]
fn a_device_file_is_read(rt: HostRuntime) -> Result<(), Fail> {
    let plan = plan(rt.alloc(), FILE)?;
    assert_eq!(rt; Some(plan.geometry), Geometry::new(0x8000_0000, 256, 64));
    assert_eq!(rt; plan.ranges.count(), 1);
    assert_eq!(rt;
        plan.ranges.range(0),
        Range {
            first: 0,
            attested: 16
        }
    );
    assert_eq!(rt; plan.key.as_str(), "key.bin");
    assert_eq!(rt; plan.last, 0);
    assert_eq!(rt; plan.cap, 200_000);
    assert_eq!(rt; plan.trace.as_str(), "trace.txt");
    assert_eq!(rt; plan.images.len(), 1);
    let image = plan.images.get(0).ok_or("no image")?;
    assert_eq!(rt; image.as_str(), "code.img");
    Ok(())
}

fn expect_app(rt: &impl Abort, app: &AppPlan, names: [&str; 2], stack: u32, fuel: u64) {
    let [file, console] = names;
    assert_eq!(rt; app.file.as_str(), file);
    assert_eq!(rt; app.console.as_str(), console);
    assert_eq!(rt; app.stack, stack);
    assert_eq!(rt; app.fuel, fuel);
}

#[test]
fn applications_are_read_in_order(rt: HostRuntime) -> Result<(), Fail> {
    let plan = plan(rt.alloc(), FILE)?;
    assert_eq!(rt; plan.apps.len(), 2);
    let first = plan.apps.get(0).ok_or("no application")?;
    expect_app(&rt, first, ["a.elf", "a.out"], 0x8000_2800, 10_000);
    let second = plan.apps.get(1).ok_or("no second application")?;
    expect_app(&rt, second, ["b.elf", "b.out"], 0x8000_3800, 10_000);
    Ok(())
}

fn expect_challenge(rt: &impl Abort, challenge: &ChallengePlan, names: [&str; 3]) {
    let [file, report, note] = names;
    assert_eq!(rt; challenge.file.as_str(), file);
    assert_eq!(rt; challenge.report.as_str(), report);
    assert_eq!(rt; challenge.note.as_str(), note);
}

#[test]
fn challenges_are_read_in_order(rt: HostRuntime) -> Result<(), Fail> {
    let plan = plan(rt.alloc(), FILE)?;
    assert_eq!(rt; plan.challenges.len(), 3);
    let first = plan.challenges.get(0).ok_or("no challenge")?;
    expect_challenge(&rt, first, ["c1.bin", "r1.bin", "n1.bin"]);
    let last = plan.challenges.get(2).ok_or("no third challenge")?;
    expect_challenge(&rt, last, ["c3.bin", "r3.bin", "n3.bin"]);
    Ok(())
}

// Each row: the rule that fails, a text of the file, and what stands in its place. 0: the file is read.
const ROWS: &str = "1|base = 0x80000000|base
2|base = 0x80000000|base = -1
3|block = 256|block = 24
4|blocks = 64|blocks = 4097
4|base = 0x80000000|base = 0x80000080
5|first = 0|first = 64
5|first = 0\\nattested = 16|ranges = [[0, 8], [8, 4]]
6|attested = 16|attested = 65
6|first = 0|first = 0\\nranges = [[0, 8], [12, 4]]
6|attested = 16|ranges = [[0, 8], [12, 4]]
7|key = \"key.bin\"|key = 1
8|last = 0|last = -1
8|last = 0\\ncap = 200000|cap = 15
9|cap = 200000|cap = 15
9|cap = 200000|cap = 4000001
9|cap = 200000\\ntrace = \"trace.txt\"|trace = 1
10|trace = \"trace.txt\"|trace = \"\"
10|trace = \"trace.txt\"\\nimages = [\"code.img\"]|images = 1
11|images = [\"code.img\"]|images = [[\"code.img\"]]
12|file = \"b.elf\"|file = \"\"
12|console = \"b.out\"|console = true
12|stack = 0x80003800|stack = 4294967296
12|0x80003800\\nfuel = 10000|0\\nfuel = 0
12|0x80003800\\nfuel = 10000|0\\nfuel = 1000001
12|fuel = 10000\\n[[challenge]]\\nfile = \"c1.bin\"|fuel = 0\\n[[challenge]]\\nfile = 1
13|file = \"c3.bin\"|file = 1
13|report = \"r1.bin\"|report = 07:30:00
13|note = \"n2.bin\"|note = {}
14|trace = \"trace.txt\"|trace = \"b.out\"
14|console = \"a.out\"|console = \"r2.bin\"
14|report = \"r1.bin\"|report = \"n1.bin\"
14|note = \"n3.bin\"|note = \"n1.bin\"
0|trace = \"trace.txt\"|trace = \"A.out\"
0|file = \"b.elf\"|file = \"a.out\"
0|images = [\"code.img\"]|other = 7
0|cap = 200000|cap = 0x10\\nreport = \"none\"
0|first = 0\\nattested = 16|ranges = [[0, 8], [12, 4]]
0|stack = 0x80003800|stack = 4294967295";

#[test]
fn each_rule_is_named_by_its_number(rt: HostRuntime) -> Result<(), Fail> {
    for row in ROWS.split('\n') {
        let mut parts = row.split('|');
        let rule = parts.next().ok_or("no rule")?;
        let text = parts
            .next()
            .ok_or("no text")?
            .replace(rt.alloc(), "\\n", "\n")?;
        let other = parts
            .next()
            .ok_or("nothing else")?
            .replace(rt.alloc(), "\\n", "\n")?;
        let file = FILE.replace(rt.alloc(), text.as_str(), other.as_str())?;
        let found = match read_device(rt.alloc(), file.as_bytes()) {
            Ok(_) => 0,
            Err(DeviceFault::Rule(number)) => number,
            Err(DeviceFault::Memory) => 99,
        };
        let found = found.to_string(rt.alloc())?;
        assert_eq!(rt; found.as_str(), rule, "{row}");
    }
    Ok(())
}

const HEAD: &str =
    "base = 0x80000000\nblock = 256\nblocks = 64\nranges = [[0, 8], [12, 4]]\nkey = \"key.bin\"\nlast = 0\ncap = 200000\ntrace = \"trace.txt\"\n";

// What a file says, or is refused for, that has so many applications and challenges.
fn with_tables(
    alloc: Global,
    apps: u32,
    challenges: u32,
) -> Result<Result<DevicePlan, DeviceFault>, Fail> {
    let mut file = String::from_str(alloc, HEAD)?;
    for n in 0..apps {
        let table = format!(in alloc;
            "[[app]]\nfile = 'a'\nconsole = 'a{n}'\nstack = 0\nfuel = 1\n"
        )?;
        file.push_str(table.as_str())?;
    }
    for n in 0..challenges {
        let table = format!(in alloc;
            "[[challenge]]\nfile = 'c'\nreport = 'r{n}'\nnote = 'n{n}'\n"
        )?;
        file.push_str(table.as_str())?;
    }
    Ok(read_device(alloc, file.as_bytes()))
}

#[test]
fn eight_applications_and_64_challenges(rt: HostRuntime) -> Result<(), Fail> {
    let Ok(plan) = with_tables(rt.alloc(), 8, 64)? else {
        return Err("refused".into());
    };
    assert_eq!(rt; [plan.apps.len(), plan.challenges.len()], [8, 64]);
    assert_eq!(rt; plan.ranges.index(12), Some(8));
    for (apps, challenges, rule) in [(0, 0, 12), (9, 0, 12), (1, 65, 13)] {
        let fault = with_tables(rt.alloc(), apps, challenges)?.err();
        assert_eq!(rt; fault, Some(DeviceFault::Rule(rule)));
    }
    Ok(())
}

#[test]
fn at_most_64_images(rt: HostRuntime) -> Result<(), Fail> {
    for (count, rule) in [(64u32, None), (65, Some(DeviceFault::Rule(11)))] {
        let mut images = String::from_str(rt.alloc(), "images = [")?;
        for _ in 0..count {
            images.push_str("'i', ")?;
        }
        images.push_str("]")?;
        let file = FILE.replace(rt.alloc(), "images = [\"code.img\"]", images.as_str())?;
        assert_eq!(rt; read_device(rt.alloc(), file.as_bytes()).err(), rule);
    }
    Ok(())
}
