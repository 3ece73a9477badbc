//! The effects of every instruction with operands at the edges, by the manual's text, and small programs.

use crate::waits::{CoreWant, Ending, Reply, TrapKind};
use crate::{Core, Geometry, Width};
use std::alloc::Global;
use std::process::Abort;

/// The address of the instruction that is tried, in the middle of a memory of 1 MiB from 0 on.
const PC: u32 = 0x8_0000;

/// ECALL.
const ECALL: u32 = 0x0000_0073;

/// The number in a cell.
fn number(rt: &impl Abort, cell: Option<&str>) -> u32 {
    let digits = cell.expect(rt, "a cell is missing");
    u32::from_str_radix(digits, 16).expect(rt, "no number")
}

/// Answers what the core wants: a fetch with the value, and a load with its lowest bytes.
fn answer(rt: &impl Abort, core: &mut Core, value: u32) {
    match core.want() {
        CoreWant::Fetch { .. } => core.told(Reply::Fetched(value)),
        CoreWant::Load {
            width: Width::Byte,
            ..
        } => core.told(Reply::Loaded(value & 0xff)),
        CoreWant::Load {
            width: Width::Half,
            ..
        } => core.told(Reply::Loaded(value & 0xffff)),
        CoreWant::Load {
            width: Width::Word,
            ..
        } => core.told(Reply::Loaded(value)),
        CoreWant::Store { .. } => core.told(Reply::Stored),
        CoreWant::Ended(ending) => assert!(rt; false, "{ending:?}"),
    }
}

/// A core that has fetched the word at `PC`, with `a` in x1 and `b` in x2.
fn after(rt: &impl Abort, word: u32, a: u32, b: u32) -> Core {
    let geometry = Geometry::new(0, 65_536, 16).expect(rt, "no such geometry");
    let mut core = Core::new(geometry, PC - 8, b);
    // lui x1, and addi x1, x1
    answer(
        rt,
        &mut core,
        a.wrapping_add(0x800) & 0xffff_f000 | 0x0000_00b7,
    );
    answer(rt, &mut core, a << 20 | 0x0000_8093);
    answer(rt, &mut core, word);
    core
}

/// The core wants this.
fn wants(rt: &impl Abort, alloc: Global, core: &Core, want: Option<&str>, case: &str) {
    let text = format!(in alloc; "{:?}", core.want()).expect(rt, "no memory");
    assert_eq!(rt; Some(text.as_str()), want, "{case}");
}

/// Each row has x1, then x2 or an immediate, and for each of the words x3.
fn results(rt: &impl Abort, words: &str, has_immediate: bool, rows: &str) {
    for row in rows.split('\n') {
        let mut cells = row.split(' ');
        let a = number(rt, cells.next());
        let b = number(rt, cells.next());
        let bits = if has_immediate { b << 20 } else { 0 };
        for word in words.split(' ') {
            let core = after(rt, number(rt, Some(word)) | bits, a, b);
            assert_eq!(rt;
                core.want(),
                CoreWant::Fetch { addr: PC + 4 },
                "{word} at {row}"
            );
            assert_eq!(rt; core.reg(3), number(rt, cells.next()), "{word} at {row}");
        }
    }
}

// add, sub, sll, slt, sltu, xor, srl, sra, or, and
const REGISTER_WORDS: &str =
    "002081b3 402081b3 002091b3 0020a1b3 0020b1b3 0020c1b3 0020d1b3 4020d1b3 0020e1b3 0020f1b3";

const REGISTER_ROWS: &str = "\
0 0 0 0 0 0 0 0 0 0 0 0\n\
1 ffffffff 0 2 80000000 0 1 fffffffe 0 0 ffffffff 1\n\
ffffffff 1 0 fffffffe fffffffe 1 0 fffffffe 7fffffff ffffffff ffffffff 1\n\
7fffffff 80000000 ffffffff ffffffff 7fffffff 0 1 ffffffff 7fffffff 7fffffff ffffffff 0\n\
80000000 7fffffff ffffffff 1 0 1 0 ffffffff 1 ffffffff ffffffff 0\n\
80000000 1f 8000001f 7fffffe1 0 1 0 8000001f 1 ffffffff 8000001f 0\n\
80000001 20 80000021 7fffffe1 80000001 1 0 80000021 80000001 80000001 80000021 0\n\
7fffffff 21 80000020 7fffffde fffffffe 0 0 7fffffde 3fffffff 3fffffff 7fffffff 21\n\
ffffffff ffffffff fffffffe 0 80000000 0 0 0 1 ffffffff ffffffff ffffffff\n\
a5a5a5a5 ff00ff4 b595b599 95b595b1 5a500000 1 0 aa55aa51 a5a fffffa5a aff5aff5 5a005a4";

// addi, slti, sltiu, xori, ori, andi
const IMMEDIATE_WORDS: &str = "00008193 0000a193 0000b193 0000c193 0000e193 0000f193";

const IMMEDIATE_ROWS: &str = "\
0 0 0 0 0 0 0 0\n\
0 fff ffffffff 0 1 ffffffff ffffffff 0\n\
ffffffff 1 0 1 0 fffffffe ffffffff 1\n\
7fffffff 7ff 800007fe 0 0 7ffff800 7fffffff 7ff\n\
80000000 800 7ffff800 1 1 7ffff800 fffff800 80000000\n\
fffff800 800 fffff000 0 0 0 fffff800 fffff800\n\
1 fff 0 0 1 fffffffe ffffffff 1\n\
ffffffff fff fffffffe 0 0 0 ffffffff ffffffff";

// slli, srli, srai
const SHIFT_WORDS: &str = "00009193 0000d193 4000d193";

const SHIFT_ROWS: &str = "\
1 0 1 1 1\n\
1 1f 80000000 0 0\n\
80000000 1 0 40000000 c0000000\n\
80000000 1f 0 1 ffffffff\n\
ffffffff 4 fffffff0 fffffff ffffffff\n\
7fffffff 1f 80000000 0 0\n\
80000001 0 80000001 80000001 80000001";

// mul, mulh, mulhsu, mulhu, div, divu, rem, remu
const MULTIPLY_WORDS: &str =
    "022081b3 022091b3 0220a1b3 0220b1b3 0220c1b3 0220d1b3 0220e1b3 0220f1b3";

const MULTIPLY_ROWS: &str = "\
0 0 0 0 0 0 ffffffff ffffffff 0 0\n\
0 1 0 0 0 0 0 0 0 0\n\
0 ffffffff 0 0 0 0 0 0 0 0\n\
0 80000000 0 0 0 0 0 0 0 0\n\
0 7fffffff 0 0 0 0 0 0 0 0\n\
1 0 0 0 0 0 ffffffff ffffffff 1 1\n\
1 1 1 0 0 0 1 1 0 0\n\
1 ffffffff ffffffff ffffffff 0 0 ffffffff 0 0 1\n\
1 80000000 80000000 ffffffff 0 0 0 0 1 1\n\
1 7fffffff 7fffffff 0 0 0 0 0 1 1\n\
ffffffff 0 0 0 0 0 ffffffff ffffffff ffffffff ffffffff\n\
ffffffff 1 ffffffff ffffffff ffffffff 0 ffffffff ffffffff 0 0\n\
ffffffff ffffffff 1 0 ffffffff fffffffe 1 1 0 0\n\
ffffffff 80000000 80000000 0 ffffffff 7fffffff 0 1 ffffffff 7fffffff\n\
ffffffff 7fffffff 80000001 ffffffff ffffffff 7ffffffe 0 2 ffffffff 1\n\
80000000 0 0 0 0 0 ffffffff ffffffff 80000000 80000000\n\
80000000 1 80000000 ffffffff ffffffff 0 80000000 80000000 0 0\n\
80000000 ffffffff 80000000 0 80000000 7fffffff 80000000 0 0 80000000\n\
80000000 80000000 0 40000000 c0000000 40000000 1 1 0 0\n\
80000000 7fffffff 80000000 c0000000 c0000000 3fffffff ffffffff 1 ffffffff 1\n\
7fffffff 0 0 0 0 0 ffffffff ffffffff 7fffffff 7fffffff\n\
7fffffff 1 7fffffff 0 0 0 7fffffff 7fffffff 0 0\n\
7fffffff ffffffff 80000001 ffffffff 7ffffffe 7ffffffe 80000001 0 0 7fffffff\n\
7fffffff 80000000 80000000 c0000000 3fffffff 3fffffff 0 0 7fffffff 7fffffff\n\
7fffffff 7fffffff 1 3fffffff 3fffffff 3fffffff 1 1 0 0\n\
fffffff9 2 fffffff2 ffffffff ffffffff 1 fffffffd 7ffffffc ffffffff 1\n\
5 0 0 0 0 0 ffffffff ffffffff 5 5\n\
7 fffffffe fffffff2 ffffffff 6 6 fffffffd 0 1 7";

// lui, lui, auipc, auipc, auipc, fence
const OTHER_WORDS: &str = "fffff1b7 000011b7 fffff197 80000197 00000197 0ff0000f";

const OTHER_ROWS: &str = "1 2 fffff000 1000 7f000 80080000 80000 0";

#[test]
fn results_in_registers(rt: HostRuntime) {
    results(&rt, REGISTER_WORDS, false, REGISTER_ROWS);
    results(&rt, IMMEDIATE_WORDS, true, IMMEDIATE_ROWS);
    results(&rt, SHIFT_WORDS, true, SHIFT_ROWS);
    results(&rt, MULTIPLY_WORDS, false, MULTIPLY_ROWS);
    results(&rt, OTHER_WORDS, false, OTHER_ROWS);
}

// beq, bne, blt, bge, bltu, bgeu, by 8
const BRANCH_WORDS: &str = "00208463 00209463 0020c463 0020d463 0020e463 0020f463";

// x1, x2, and for each word 1 where it is taken
const BRANCH_ROWS: &str = "\
0 0 1 0 0 1 0 1\n\
1 ffffffff 0 1 0 1 1 0\n\
ffffffff 1 0 1 1 0 0 1\n\
7fffffff 80000000 0 1 0 1 1 0\n\
80000000 7fffffff 0 1 1 0 0 1\n\
80000000 80000000 1 0 0 1 0 1\n\
0 1 0 1 1 0 1 0\n\
1 0 0 1 0 1 0 1";

#[test]
fn branches(rt: HostRuntime) {
    let next = CoreWant::Fetch { addr: PC + 4 };
    let far = CoreWant::Fetch { addr: PC + 8 };
    let trap = CoreWant::Ended(Ending::Trap(TrapKind::FetchMisaligned, PC));
    for row in BRANCH_ROWS.split('\n') {
        let mut cells = row.split(' ');
        let a = number(&rt, cells.next());
        let b = number(&rt, cells.next());
        for word in BRANCH_WORDS.split(' ') {
            let by_8 = number(&rt, Some(word));
            let is_taken = number(&rt, cells.next()) == 1;
            let want = after(&rt, by_8, a, b).want();
            assert_eq!(rt; want, if is_taken { far } else { next }, "{word} at {row}");
            // The branch by 6 isn't to a word.
            let want = after(&rt, by_8.wrapping_sub(0x100), a, b).want();
            assert_eq!(rt;
                want,
                if is_taken { trap } else { next },
                "{word} by 6 at {row}"
            );
        }
    }
}

// beq by 4092 and by -4096; jal by 8, by 524284 and by -524288, and without a link; jalr: bit 0 is cleared, the sum
// wraps, x1 is read before it is written. Targets that are no words; EBREAK, words of no row, ECALL with 0 in a7. lb,
// lh, lw, lbu, lhu from -4(x1), told a value. sb, sh, sw at -4(x1). Misaligned before outside, and outside, at x1 and
// at 2047(x1); sums wrap. Nothing is written to x0: addi, lui, add and a load.
// Each row has a word, x1, x2, what is wanted after it, x3 in the end, and for an access its answer.
const CASES: &str = "\
7e000ee3;0;0;Fetch { addr: 528380 };0\n\
80000063;0;0;Fetch { addr: 520192 };0\n\
008001ef;0;0;Fetch { addr: 524296 };80004\n\
7fd7f1ef;0;0;Fetch { addr: 1048572 };80004\n\
800801ef;0;0;Fetch { addr: 0 };80004\n\
8008006f;0;0;Fetch { addr: 0 };0\n\
000081e7;1235;0;Fetch { addr: 4660 };80004\n\
001081e7;ffffffff;0;Fetch { addr: 0 };80004\n\
fff081e7;1;0;Fetch { addr: 0 };80004\n\
000080e7;1000;0;Fetch { addr: 4096 };0\n\
00008067;1000;0;Fetch { addr: 4096 };0\n\
002001ef;0;0;Ended(Trap(FetchMisaligned, 524288));0\n\
002081e7;0;0;Ended(Trap(FetchMisaligned, 524288));0\n\
000081e7;1003;0;Ended(Trap(FetchMisaligned, 524288));0\n\
00000163;0;0;Ended(Trap(FetchMisaligned, 524288));0\n\
00100073;0;0;Ended(Trap(Breakpoint, 524288));0\n\
00000000;0;0;Ended(Trap(Illegal, 524288));0\n\
ffffffff;0;0;Ended(Trap(Illegal, 524288));0\n\
042081b3;0;0;Ended(Trap(Illegal, 524288));0\n\
00000073;0;0;Ended(Trap(UnknownCall, 524288));0\n\
ffc08183;104;0;Load { addr: 256, width: Byte };7f;7f\n\
ffc08183;104;0;Load { addr: 256, width: Byte };ffffff80;80\n\
ffc09183;104;0;Load { addr: 256, width: Half };7fff;7fff\n\
ffc09183;104;0;Load { addr: 256, width: Half };ffff8000;8000\n\
ffc0a183;104;0;Load { addr: 256, width: Word };80000000;80000000\n\
ffc0c183;104;0;Load { addr: 256, width: Byte };ff;ff\n\
ffc0d183;104;0;Load { addr: 256, width: Half };ffff;ffff\n\
fe208e23;104;12345678;Store { addr: 256, width: Byte, value: 120 };0;0\n\
fe209e23;104;12345678;Store { addr: 256, width: Half, value: 22136 };0;0\n\
fe20ae23;104;12345678;Store { addr: 256, width: Word, value: 305419896 };0;0\n\
00009183;1;1ff;Ended(Trap(LoadMisaligned, 524288));0\n\
0000a183;fffffffe;1ff;Ended(Trap(LoadMisaligned, 524288));0\n\
0000a183;100000;1ff;Ended(Trap(LoadAccess, 524288));0\n\
00008183;ffffffff;1ff;Ended(Trap(LoadAccess, 524288));0\n\
00209023;3;1ff;Ended(Trap(StoreMisaligned, 524288));0\n\
0020a023;100002;1ff;Ended(Trap(StoreMisaligned, 524288));0\n\
0020a023;100000;1ff;Ended(Trap(StoreAccess, 524288));0\n\
00208023;100000;1ff;Ended(Trap(StoreAccess, 524288));0\n\
0000d183;ffffe;0;Load { addr: 1048574, width: Half };abcd;abcd\n\
7ff0c183;fffff801;0;Load { addr: 0, width: Byte };ab;ab\n\
7e208fa3;fffff801;1ff;Store { addr: 0, width: Byte, value: 255 };0;0\n\
00508013;7;9;Fetch { addr: 524292 };0\n\
fffff037;7;9;Fetch { addr: 524292 };0\n\
00208033;7;9;Fetch { addr: 524292 };0\n\
00008003;100;0;Load { addr: 256, width: Byte };0;ff";

#[test]
fn jumps_traps_and_accesses(rt: HostRuntime) {
    for row in CASES.split('\n') {
        let mut cells = row.split(';');
        let word = number(&rt, cells.next());
        let a = number(&rt, cells.next());
        let b = number(&rt, cells.next());
        let mut core = after(&rt, word, a, b);
        wants(&rt, rt.alloc(), &core, cells.next(), row);
        let x3 = number(&rt, cells.next());
        if let Some(value) = cells.next() {
            answer(&rt, &mut core, number(&rt, Some(value)));
            assert_eq!(rt; core.want(), CoreWant::Fetch { addr: PC + 4 }, "{row}");
        }
        assert_eq!(rt; core.reg(3), x3, "{row}");
        assert_eq!(rt; core.reg(0), 0, "{row}");
    }
}

// addi x1, x0, 5; lui x2, 0x80000; sw x1, 0(x2); ecall with 0 in a7, or a word of no row. jalr x1, 1(x2) clears bit 0
// of its target; jalr x1, 2(x2) traps and leaves x1. A pc before memory, past it, and one that wraps round 2^32.
// Each row has the base of four blocks of 16 bytes, the pc, x2, the answers, what is wanted after them, and x1.
const PROGRAMS: &str = "\
80000000;80000000;0;500093;Fetch { addr: 2147483652 };5\n\
80000000;80000000;0;500093 80000137 112023;Store { addr: 2147483648, width: Word, value: 5 };5\n\
80000000;80000000;0;500093 80000137 112023 0;Fetch { addr: 2147483660 };5\n\
80000000;80000000;0;500093 80000137 112023 0 73;Ended(Trap(UnknownCall, 2147483660));5\n\
80000000;80000000;0;500093 80000137 112023 0 0;Ended(Trap(Illegal, 2147483660));5\n\
80000000;80000000;80000008;1100e7;Fetch { addr: 2147483656 };80000004\n\
80000000;80000000;80000008;2100e7;Ended(Trap(FetchMisaligned, 2147483648));0\n\
80000000;8000003c;0;13;Ended(Trap(FetchAccess, 2147483712));0\n\
ffffffc0;fffffffc;0;13;Ended(Trap(FetchAccess, 0));0\n\
80000000;80000000;7ffffffc;10067;Ended(Trap(FetchAccess, 2147483644));0";

#[test]
fn small_programs(rt: HostRuntime) {
    for row in PROGRAMS.split('\n') {
        let mut cells = row.split(';');
        let base = number(&rt, cells.next());
        let geometry = Geometry::new(base, 16, 4).expect(&rt, "no such geometry");
        let pc = number(&rt, cells.next()) & 0xffff_fffc;
        let mut core = Core::new(geometry, pc, number(&rt, cells.next()));
        for value in cells.next().unwrap_or("").split(' ') {
            answer(&rt, &mut core, number(&rt, Some(value)));
        }
        wants(&rt, rt.alloc(), &core, cells.next(), row);
        assert_eq!(rt; core.reg(1), number(&rt, cells.next()), "{row}");
    }
}

// The 4,097th byte isn't printed; then the application ends with the status in a0.
#[test]
fn console_past_its_end(rt: HostRuntime) {
    let mut core = after(&rt, 0x0010_0893, 0, 0);
    for k in 0u32..4096 {
        // addi a0, x0, k, of which the low byte is printed
        answer(&rt, &mut core, (k & 0x7ff) << 20 | 0x513);
        answer(&rt, &mut core, ECALL);
        assert_eq!(rt; core.reg(10), 0, "after byte {k}");
        assert_eq!(rt; core.console().len(), k as usize + 1);
        assert_eq!(rt; core.console().last().copied(), Some((k & 0xff) as u8));
    }
    answer(&rt, &mut core, 0x0410_0513);
    answer(&rt, &mut core, ECALL);
    assert_eq!(rt; core.reg(10), 0xffff_ffff);
    assert_eq!(rt; core.console().len(), 4096);
    assert_eq!(rt; core.console().last().copied(), Some(0xff));
    // addi a7, x0, 93
    answer(&rt, &mut core, 0x05d0_0893);
    answer(&rt, &mut core, ECALL);
    assert_eq!(rt; core.want(), CoreWant::Ended(Ending::Exit(0xffff_ffff)));
}

#[test]
fn codes_of_traps(rt: HostRuntime) {
    assert_eq!(rt; TrapKind::Illegal.code(), 1);
    assert_eq!(rt; TrapKind::UnknownCall.code(), 9);
}
