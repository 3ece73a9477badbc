use super::*;
use att_base::MemSink;
use rv_decode::{Instr, decode, encode};
use std::alloc::Global;
use std::process::Abort;
use std::test::Fail;

// Every statement with numbers at the edges of their fields, and its bytes as LLVM's assembler (`llvm-mc
// --triple=riscv32`) gives them;
// those of multiply and divide are the manual's fields, put together.
const STATEMENTS: &[u8] = b".segment 0x80000000\n.entry main\nmain:\n\
lui a0, 0x12345\n\
lui x31, 0xfffff\n\
auipc gp, 0\n\
jal ra, 8\n\
jal x0, -4\n\
jal t0, 1048574\n\
jal x1, -1048576\n\
jalr ra, -2048(sp)\n\
jalr zero, 2047(t6)\n\
lb a0, -1(a1)\n\
lh a2, 2(a3)\n\
lw s0, 0(sp)\n\
lbu s11, 255(tp)\n\
lhu t3, 0x10(x31)\n\
sb a0, -2048(s1)\n\
sh t4, 31(t5)\n\
sw ra, 2047(gp)\n\
beq a0, a1, 16\n\
bne x1, x2, -16\n\
blt t0, t1, 4094\n\
bge s2, s3, -4096\n\
bltu a6, a7, 2\n\
bgeu s4, s5, -2\n\
addi x1, x2, -2048\n\
slti x3, x4, 2047\n\
sltiu x5, x6, -1\n\
xori x7, x8, 1365\n\
ori x9, x10, 0x7ff\n\
andi x11, x12, 0\n\
slli a0, a0, 31\n\
srli a1, a2, 0\n\
srai a3, a4, 17\n\
add x1, x2, x3\n\
sub x4, x5, x6\n\
sll x7, x8, x9\n\
slt x10, x11, x12\n\
sltu x13, x14, x15\n\
xor x16, x17, x18\n\
srl x19, x20, x21\n\
sra x22, x23, x24\n\
or x25, x26, x27\n\
and x28, x29, x30\n\
mul x1, x2, x3\n\
mulh x4, x5, x6\n\
mulhsu x7, x8, x9\n\
mulhu x10, x11, x12\n\
div x13, x14, x15\n\
divu x16, x17, x18\n\
rem x19, x20, x21\n\
remu x22, x23, x24\n\
fence\n\
ecall\n\
ebreak\n\
nop\n\
mv s6, s7\n\
li a0, 2047\n\
li a1, -2048\n\
li s8, 0\n\
j 12\n\
jr s9\n\
ret\n\
beqz s10, 4\n\
bnez a0, -8";

const STATEMENT_BYTES: &[u8] = b"\
\x37\x55\x34\x12\xb7\xff\xff\xff\x97\x01\x00\x00\xef\x00\x80\x00\x6f\xf0\xdf\xff\xef\xf2\xff\x7f\xef\x00\x00\x80\xe7\x00\x01\x80\
\x67\x80\xff\x7f\x03\x85\xf5\xff\x03\x96\x26\x00\x03\x24\x01\x00\x83\x4d\xf2\x0f\x03\xde\x0f\x01\x23\x80\xa4\x80\xa3\x1f\xdf\x01\
\xa3\xaf\x11\x7e\x63\x08\xb5\x00\xe3\x98\x20\xfe\xe3\xcf\x62\x7e\x63\x50\x39\x81\x63\x61\x18\x01\xe3\x7f\x5a\xff\x93\x00\x01\x80\
\x93\x21\xf2\x7f\x93\x32\xf3\xff\x93\x43\x54\x55\x93\x64\xf5\x7f\x93\x75\x06\x00\x13\x15\xf5\x01\x93\x55\x06\x00\x93\x56\x17\x41\
\xb3\x00\x31\x00\x33\x82\x62\x40\xb3\x13\x94\x00\x33\xa5\xc5\x00\xb3\x36\xf7\x00\x33\xc8\x28\x01\xb3\x59\x5a\x01\x33\xdb\x8b\x41\
\xb3\x6c\xbd\x01\x33\xfe\xee\x01\
\xb3\x00\x31\x02\x33\x92\x62\x02\xb3\x23\x94\x02\x33\xb5\xc5\x02\xb3\x46\xf7\x02\x33\xd8\x28\x03\xb3\x69\x5a\x03\x33\xfb\x8b\x03\
\x0f\x00\xf0\x0f\x73\x00\x00\x00\x73\x00\x10\x00\x13\x00\x00\x00\x13\x8b\x0b\x00\x13\x05\xf0\x7f\
\x93\x05\x00\x80\x13\x0c\x00\x00\x6f\x00\xc0\x00\x67\x80\x0c\x00\x67\x80\x00\x00\x63\x02\x0d\x00\xe3\x1c\x05\xfe";

// The listing's text of each of these words.
const SHOWN: &[u8] = b"\
lui x10, 0x12345\n\
lui x31, 0xfffff\n\
auipc x3, 0x00000\n\
jal x1, 8\n\
jal x0, -4\n\
jal x5, 1048574\n\
jal x1, -1048576\n\
jalr x1, -2048(x2)\n\
jalr x0, 2047(x31)\n\
lb x10, -1(x11)\n\
lh x12, 2(x13)\n\
lw x8, 0(x2)\n\
lbu x27, 255(x4)\n\
lhu x28, 16(x31)\n\
sb x10, -2048(x9)\n\
sh x29, 31(x30)\n\
sw x1, 2047(x3)\n\
beq x10, x11, 16\n\
bne x1, x2, -16\n\
blt x5, x6, 4094\n\
bge x18, x19, -4096\n\
bltu x16, x17, 2\n\
bgeu x20, x21, -2\n\
addi x1, x2, -2048\n\
slti x3, x4, 2047\n\
sltiu x5, x6, -1\n\
xori x7, x8, 1365\n\
ori x9, x10, 2047\n\
andi x11, x12, 0\n\
slli x10, x10, 31\n\
srli x11, x12, 0\n\
srai x13, x14, 17\n\
add x1, x2, x3\n\
sub x4, x5, x6\n\
sll x7, x8, x9\n\
slt x10, x11, x12\n\
sltu x13, x14, x15\n\
xor x16, x17, x18\n\
srl x19, x20, x21\n\
sra x22, x23, x24\n\
or x25, x26, x27\n\
and x28, x29, x30\n\
mul x1, x2, x3\n\
mulh x4, x5, x6\n\
mulhsu x7, x8, x9\n\
mulhu x10, x11, x12\n\
div x13, x14, x15\n\
divu x16, x17, x18\n\
rem x19, x20, x21\n\
remu x22, x23, x24\n\
fence\n\
ecall\n\
ebreak\n\
addi x0, x0, 0\n\
addi x22, x23, 0\n\
addi x10, x0, 2047\n\
addi x11, x0, -2048\n\
addi x24, x0, 0\n\
jal x0, 12\n\
jalr x0, 0(x25)\n\
jalr x0, 0(x1)\n\
beq x26, x0, 4\n\
bne x10, x0, -8";

// Labels before and behind their uses, and the pairs of lui and addi written out for the same assembler.
const LABELS: &[u8] = b".segment 0x80000800\nmain: j end\nback: la a0, data\nli a1, -559038737\n\
li a2, 0xfffff800\nbeqz a1, back\nbne a0, a1, end\nend: jal ra, back\n.word 1, main, -1\n\
.byte 255, -128, 0x7f\ndata: .byte 0\n.entry back\n.segment 16\n.space 3\n.byte 1";

const LABEL_BYTES: &[u8] = b"\
\x6f\x00\x40\x02\x37\x15\x00\x80\x13\x05\x75\x83\xb7\xc5\xad\xde\x93\x85\xf5\xee\x37\x06\x00\x00\x13\x06\x06\x80\xe3\x84\x05\xfe\
\x63\x12\xb5\x00\xef\xf0\x1f\xfe\x01\x00\x00\x00\x00\x08\x00\x80\xff\xff\xff\xff\xff\x80\x7f\x00";

// A text's first fault, by line and kind, or 0 0 where it has none. In a text `;` stands for a line's end, and `@` for
// three lines that begin a program.
const FAULTS: &[u8] = b"\
4 1|@1a: nop\n\
4 1|@a: b: nop\n\
4 1|@add,x1,x2\n\
4 1|@aaaaaaaaaaaaaaaaaaaaaaaaaaaaaaaaaaaaaaaaaaaaaaaaaaaaaaaaaaaaaaaaa: nop\n\
0 0|@aaaaaaaaaaaaaaaaaaaaaaaaaaaaaaaaaaaaaaaaaaaaaaaaaaaaaaaaaaaaaaaa: nop\n\
4 1|@\x7f\n\
4 1|@nop # \x80\n\
4 1|@\x00\n\
4 1|@nop \r ;\n\
4 1|@nop\r\n\
4 1|@nop\r\r;\n\
0 0|@nop\r;\n\
0 0|@\tnop\t#~;;  a: ;b:nop # m: x\n\
4 2|@main : nop\n\
4 2|@foo\n\
4 2|@NOP\n\
4 2|@a:foo\n\
0 0|@addi:nop;x1: j x1\n\
4 3|@nop x1\n\
4 3|@add x1, x2\n\
4 3|@add x1, x2, x3, x4\n\
4 3|@addi x1, x2, x3\n\
4 3|@add x1, x2, 3\n\
4 3|@add x1, x2,\n\
4 3|@lw x1, 4\n\
4 3|@lw x1, x2\n\
4 3|@li x1, 4(x2)\n\
4 3|@la x1, 4\n\
4 3|@.entry 4\n\
4 3|@j 4(x1)\n\
4 3|@beq x1, x2, x 3\n\
4 3|@.word\n\
4 3|@.byte\n\
4 3|@.byte x1\n\
4 3|@.word 4(x1)\n\
4 3|@.segment\n\
4 4|@add x1, x2, y3\n\
4 4|@add x32, x1, x1\n\
4 4|@add x01, x1, x1\n\
4 4|@mv a8, x1\n\
4 4|@mv t7, x1\n\
4 4|@mv s12, x1\n\
4 4|@mv x1 x2, x3\n\
4 4|@lw x1, 0(y)\n\
4 4|@lw x1, 4( x2 )\n\
4 4|@lw x1, 4()\n\
4 5|@li x1, 007\n\
0 0|@li x1, -0\n\
4 5|@li x1, 4294967296\n\
0 0|@li x1, 4294967295\n\
4 5|@li x1, -2147483649\n\
0 0|@li x1, -2147483648\n\
4 5|@li x1, 0x\n\
4 5|@li x1, 0x100000000\n\
0 0|@li x1, 0x000000000000000ffffFFFF\n\
4 5|@li x1, -0x1\n\
4 5|@li x1, 0X1\n\
4 5|@li x1, +1\n\
4 5|@li x1, -\n\
4 5|@li x1, 1 2\n\
4 5|@li x1, 1a\n\
4 5|@lw x1, 4 (x2)\n\
4 5|@lw x1, (x2)\n\
4 5|@addi x1, x2,\n\
4 5|@.byte 1, , 2\n\
4 6|@addi x1, x0, 2048\n\
4 6|@addi x1, x0, -2049\n\
4 6|@lui x1, 0x100000\n\
4 6|@auipc x1, -1\n\
4 6|@slli x1, x1, 32\n\
4 6|@srai x1, x1, -1\n\
4 6|@lw x1, 2048(x2)\n\
4 6|@sw x1, -2049(x2)\n\
4 6|@jalr x1, -2049(x2)\n\
4 6|@j 1048576\n\
4 6|@jal x1, -1048578\n\
4 6|@j 1\n\
4 6|@beq x1, x1, 4096\n\
4 6|@beqz x1, -4098\n\
4 6|@bnez x1, 3\n\
4 6|@.byte 256\n\
4 6|@.byte -129\n\
0 0|@.byte 255, -128\n\
4 6|@.space 1048577\n\
4 6|@.space -1\n\
4 6|@.segment -1\n\
4 8|@m: nop\n\
4 8|@m:\n\
1 9|\n\
2 9|# nothing\n\
3 9|.segment 0;m: nop\n\
1 9|m: .segment 0\n\
1 9|m:\n\
1 9|nop\n\
0 0|.space 0;@\n\
4 9|@.entry m\n\
5 9|@.byte 1;nop\n\
0 0|@.byte 1;.word 2\n\
4 9|@.space 1048573\n\
0 0|@.space 1048572\n\
2 9|.segment 0xfffffffd;.word 1\n\
0 0|.segment 0xffffffff;.entry m;m: .byte 1\n\
3 9|.segment 0xffffffff;.byte 1;m:\n\
4 7|@j q\n\
4 7|@jal x1, q\n\
4 7|@la x1, q\n\
4 7|@beq x1, x2, q\n\
4 7|@bnez x1, q\n\
4 7|@.word 1, q\n\
2 7|.segment 0;.entry q\n\
5 6|@.space 4096;beq x0, x0, m\n\
5 6|@.space 4100;beq x0, x0, m\n\
0 0|@.space 4088;beq x0, x0, m\n\
6 6|@.byte 1;q: .byte 1, 1, 1;j q\n\
3 9|.segment 0;j q\n\
5 2|@j q;foo\n\
5 6|@j q;j 1\n\
4 1|@m: 1x\n\
1 1|m: 1x\n\
4 1|@1x \x80\n\
4 8|@m: foo\n\
4 8|@m: nop x1\n\
4 8|@m: mv x1, y\n\
4 8|@m: li x1, 0x\n\
4 8|@m: j 1\n\
5 8|@.byte 1;m: nop\n\
1 2|foo\n\
1 2|m: foo x1, 0x\n\
4 3|@add y, x1, 3\n\
4 3|@addi x1, 2, 0x\n\
4 3|@addi 1, x1, 4096\n\
1 3|nop x1\n\
4 4|@addi x1, y, 0x\n\
4 4|@lw x1, 0x(y)\n\
4 4|@sw y, 0x(x1)\n\
4 4|@addi y, x1, 4096\n\
1 4|mv x1, y\n\
4 5|@.byte 256, 0x\n\
4 5|@lw x1, 9999999999(x2)\n\
1 5|li x1, 0x\n\
1 6|j 1\n\
1 6|m: .space -1";

const BEGINNING: &[u8] = b".segment 0\n.entry m\nm: nop\n";

fn expect_program(
    rt: &(impl Abort + Alloc<A = Global>),
    text: &[u8],
    entry: u32,
    segments: &[(u32, &[u8])],
) -> Result<(), Fail> {
    let Ok(program) = assemble(rt.alloc(), text) else {
        return Err("the text is refused".into());
    };
    assert!(rt; program.entry == entry);
    assert!(rt; program.segments.len() == segments.len());
    for (k, (addr, bytes)) in segments.iter().enumerate() {
        let Some(segment) = program.segments.get(k) else {
            return Err("a segment is missing".into());
        };
        assert!(rt; segment.addr == *addr);
        assert!(rt; segment.bytes.as_slice() == *bytes);
    }
    Ok(())
}

#[test]
fn statements_have_their_words(rt: HostRuntime) -> Result<(), Fail> {
    expect_program(
        &rt,
        STATEMENTS,
        0x8000_0000,
        &[(0x8000_0000, STATEMENT_BYTES)],
    )
}

#[test]
fn the_two_line_program(rt: HostRuntime) -> Result<(), Fail> {
    expect_program(
        &rt,
        b".segment 0x80000000\n.entry main\nmain: li a0, 0x12345FFF\necall\n".as_slice(),
        0x8000_0000,
        &[(
            0x8000_0000,
            b"\x37\x65\x34\x12\x13\x05\xf5\xff\x73\x00\x00\x00",
        )],
    )
}

// Jumps go both ways by whole distances, a pair's lower part may be negative, and labels have words.
#[test]
fn labels_have_their_addresses(rt: HostRuntime) -> Result<(), Fail> {
    expect_program(
        &rt,
        LABELS,
        0x8000_0804,
        &[(0x8000_0800, LABEL_BYTES), (16, b"\x00\x00\x00\x01")],
    )
}

// The text of a row, with what `;` and `@` stand for.
fn spelled_out(alloc: Global, row: &[u8]) -> Result<Vec<u8>, Fail> {
    let mut text = Vec::new(alloc);
    for byte in row {
        match *byte {
            b';' => text.push(b'\n')?,
            b'@' => text.extend_from_slice(BEGINNING)?,
            other => text.push(other)?,
        }
    }
    Ok(text)
}

#[test]
fn faults_come_in_their_order(rt: HostRuntime) -> Result<(), Fail> {
    for row in FAULTS.split(|byte| *byte == b'\n') {
        if row.len() < 4 {
            return Err("a row has no text".into());
        }
        let line = u64::from(row[0].saturating_sub(b'0'));
        let kind = u32::from(row[2].saturating_sub(b'0'));
        let text = spelled_out(rt.alloc(), &row[4..])?;
        match assemble(rt.alloc(), &text) {
            Ok(_) => assert!(rt; line == 0, "a fault is missing"),
            Err(fault) => assert_eq!(rt; fault, AsmFault::At { line, kind }),
        }
    }
    Ok(())
}

// A thousand labels, each of which names itself.
#[test]
fn a_thousand_labels(rt: HostRuntime) -> Result<(), Fail> {
    let mut text = Vec::new(rt.alloc());
    text.extend_from_slice(b".segment 0\n.entry l999\n".as_slice())?;
    for k in 0..1000u32 {
        let line = format!(in rt.alloc(); "l{k}: .word l{k}\n")?;
        text.extend_from_slice(line.as_str().as_bytes())?;
    }
    let Ok(program) = assemble(rt.alloc(), &text) else {
        return Err("the text is refused".into());
    };
    let Some(segment) = program.segments.get(0) else {
        return Err("the segment is missing".into());
    };
    let mut address = 0u32;
    for word in segment.bytes.as_slice().chunks(4) {
        assert!(rt; word == address.to_le_bytes().as_slice());
        address = address.wrapping_add(4);
    }
    assert!(rt; address == 4000);
    assert!(rt; program.entry == 3996);
    Ok(())
}

// 64 segments are the most.
#[test]
fn segments_are_counted(rt: HostRuntime) -> Result<(), Fail> {
    let mut text = Vec::new(rt.alloc());
    text.extend_from_slice(b".entry a\n".as_slice())?;
    for _ in 0..64 {
        text.extend_from_slice(b".segment 7\n".as_slice())?;
    }
    text.extend_from_slice(b"a:\n".as_slice())?;
    let Ok(program) = assemble(rt.alloc(), &text) else {
        return Err("64 segments are refused".into());
    };
    assert!(rt; program.segments.len() == 64);
    text.extend_from_slice(b".segment 7\n".as_slice())?;
    let fault = AsmFault::At { line: 67, kind: 9 };
    assert!(rt; matches!(assemble(rt.alloc(), &text), Err(f) if f == fault));
    Ok(())
}

// What show appends to a sink that takes two bytes a call.
fn shown(alloc: Global, instr: &Instr) -> Result<MemSink, Fail> {
    let mut sink = MemSink::new(alloc, 100, 2, Vec::new(alloc))?;
    if encode(instr).is_none() {
        return Err("a field is out of range".into());
    }
    match show(instr, &mut sink) {
        Ok(()) => Ok(sink),
        Err(_) => Err("the sink fails".into()),
    }
}

#[test]
fn words_have_their_texts(rt: HostRuntime) -> Result<(), Fail> {
    let mut bytes = STATEMENT_BYTES;
    for text in SHOWN.split(|byte| *byte == b'\n') {
        if bytes.len() < 4 {
            return Err("a word is missing".into());
        }
        let word = u32::from_le_bytes([bytes[0], bytes[1], bytes[2], bytes[3]]);
        bytes = &bytes[4..];
        let Some(instr) = decode(word) else {
            return Err("a word has no instruction".into());
        };
        assert!(rt; shown(rt.alloc(), &instr)?.held() == text);
    }
    assert!(rt; bytes.is_empty());
    Ok(())
}

// A fence that isn't the full one is shown as its word; a sink that fails keeps a front of the text.
#[test]
fn other_fences_and_failing_sinks(rt: HostRuntime) -> Result<(), Fail> {
    let fence = Instr::Fence {
        rd: 0,
        rs1: 0,
        imm: 0x833,
    };
    assert!(rt; shown(rt.alloc(), &fence)?.held() == b".word 0x8330000f".as_slice());
    let mut fails = Vec::new(rt.alloc());
    fails.push(2)?;
    let mut sink = MemSink::new(rt.alloc(), 100, 2, fails)?;
    let ebreak = Instr::Ebreak;
    if encode(&ebreak).is_none() {
        return Err("ebreak has a word".into());
    }
    assert!(rt; show(&ebreak, &mut sink).is_err());
    assert!(rt; sink.held() == b"ebre".as_slice());
    Ok(())
}
