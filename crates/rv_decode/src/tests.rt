use super::*;

// Words as an assembler for RV32IM writes them, by the encodings of the RISC-V Unprivileged ISA manual, and their
// instructions.
const WORDS: &str = "\
123450b7 Lui { rd: 1, imm: 74565 }\n\
ffffffb7 Lui { rd: 31, imm: 1048575 }\n\
00000037 Lui { rd: 0, imm: 0 }\n\
80000297 Auipc { rd: 5, imm: 524288 }\n\
001000ef Jal { rd: 1, imm: 2048 }\n\
8000006f Jal { rd: 0, imm: -1048576 }\n\
7fffffef Jal { rd: 31, imm: 1048574 }\n\
fffff06f Jal { rd: 0, imm: -2 }\n\
5545536f Jal { rd: 6, imm: 349524 }\n\
001100e7 Jalr { rd: 1, rs1: 2, imm: 1 }\n\
00008067 Jalr { rd: 0, rs1: 1, imm: 0 }\n\
800f0fe7 Jalr { rd: 31, rs1: 30, imm: -2048 }\n\
00208463 Branch { op: Beq, rs1: 1, rs2: 2, imm: 8 }\n\
fe019ee3 Branch { op: Bne, rs1: 3, rs2: 0, imm: -4 }\n\
7fefcfe3 Branch { op: Blt, rs1: 31, rs2: 30, imm: 4094 }\n\
80525063 Branch { op: Bge, rs1: 4, rs2: 5, imm: -4096 }\n\
007360e3 Branch { op: Bltu, rs1: 6, rs2: 7, imm: 2048 }\n\
fff47f63 Branch { op: Bgeu, rs1: 8, rs2: 31, imm: -2050 }\n\
7ff10083 Load { op: Lb, rd: 1, rs1: 2, imm: 2047 }\n\
800f9183 Load { op: Lh, rd: 3, rs1: 31, imm: -2048 }\n\
00042f83 Load { op: Lw, rd: 31, rs1: 8, imm: 0 }\n\
fff54483 Load { op: Lbu, rd: 9, rs1: 10, imm: -1 }\n\
00465583 Load { op: Lhu, rd: 11, rs1: 12, imm: 4 }\n\
7e110fa3 Store { op: Sb, rs1: 2, rs2: 1, imm: 2047 }\n\
81ff1023 Store { op: Sh, rs1: 30, rs2: 31, imm: -2048 }\n\
fed720a3 Store { op: Sw, rs1: 14, rs2: 13, imm: -31 }\n\
05d00893 Imm { op: Addi, rd: 17, rs1: 0, imm: 93 }\n\
80012093 Imm { op: Slti, rd: 1, rs1: 2, imm: -2048 }\n\
7fff3f93 Imm { op: Sltiu, rd: 31, rs1: 30, imm: 2047 }\n\
fff2c293 Imm { op: Xori, rd: 5, rs1: 5, imm: -1 }\n\
5553e313 Imm { op: Ori, rd: 6, rs1: 7, imm: 1365 }\n\
aaa4f413 Imm { op: Andi, rd: 8, rs1: 9, imm: -1366 }\n\
00000013 Imm { op: Addi, rd: 0, rs1: 0, imm: 0 }\n\
01f11093 Shift { op: Slli, rd: 1, rs1: 2, shamt: 31 }\n\
001f5f93 Shift { op: Srli, rd: 31, rs1: 30, shamt: 1 }\n\
41f25193 Shift { op: Srai, rd: 3, rs1: 4, shamt: 31 }\n\
40025193 Shift { op: Srai, rd: 3, rs1: 4, shamt: 0 }\n\
003100b3 Reg { op: Add, rd: 1, rs1: 2, rs2: 3 }\n\
41df0fb3 Reg { op: Sub, rd: 31, rs1: 30, rs2: 29 }\n\
00629233 Reg { op: Sll, rd: 4, rs1: 5, rs2: 6 }\n\
009423b3 Reg { op: Slt, rd: 7, rs1: 8, rs2: 9 }\n\
00c5b533 Reg { op: Sltu, rd: 10, rs1: 11, rs2: 12 }\n\
00f746b3 Reg { op: Xor, rd: 13, rs1: 14, rs2: 15 }\n\
0128d833 Reg { op: Srl, rd: 16, rs1: 17, rs2: 18 }\n\
415a59b3 Reg { op: Sra, rd: 19, rs1: 20, rs2: 21 }\n\
018beb33 Reg { op: Or, rd: 22, rs1: 23, rs2: 24 }\n\
01fd7cb3 Reg { op: And, rd: 25, rs1: 26, rs2: 31 }\n\
0ff0000f Fence { rd: 0, rs1: 0, imm: 255 }\n\
0310000f Fence { rd: 0, rs1: 0, imm: 49 }\n\
8330000f Fence { rd: 0, rs1: 0, imm: 2099 }\n\
00000073 Ecall\n\
00100073 Ebreak\n\
abcf8f8f Fence { rd: 31, rs1: 31, imm: 2748 }\n\
022081b3 Mul { op: Mul, rd: 3, rs1: 1, rs2: 2 }\n\
03df1fb3 Mul { op: Mulh, rd: 31, rs1: 30, rs2: 29 }\n\
02ffa0b3 Mul { op: Mulhsu, rd: 1, rs1: 31, rs2: 15 }\n\
03f03833 Mul { op: Mulhu, rd: 16, rs1: 0, rs2: 31 }\n\
0220c1b3 Mul { op: Div, rd: 3, rs1: 1, rs2: 2 }\n\
02005033 Mul { op: Divu, rd: 0, rs1: 0, rs2: 0 }\n\
0220e1b3 Mul { op: Rem, rd: 3, rs1: 1, rs2: 2 }\n\
03ffffb3 Mul { op: Remu, rd: 31, rs1: 31, rs2: 31 }";

#[test]
fn words_and_instructions(rt: HostRuntime) {
    for row in WORDS.split('\n') {
        let (word, shown) = row.split_once(' ').expect(&rt, "no row");
        let word = u32::from_str_radix(word, 16).expect(&rt, "no word");
        let instr = decode(word).expect(&rt, "no instruction");
        let text = format!(in rt.alloc(); "{instr:?}").expect(&rt, "no memory");
        assert_eq!(rt; text.as_str(), shown, "decoding {word:08x}");
        assert_eq!(rt; encode(&instr), Some(word), "encoding {shown}");
    }
}

// All zeros and all ones; JALR, branches, loads and stores with a funct3 of no row; shifts by a constant with a funct7 of
// no row, that of M among them; register operations with a funct7 of no row; funct7 of M with other opcodes; FENCE.I and
// what else has FENCE's opcode; MRET, WFI, CSRRW and other words of SYSTEM than ECALL and EBREAK; compressed words, and
// opcodes of other extensions or of none.
const WORDS_OF_NO_ROW: &str = "00000000 ffffffff \
00001067 00007067 00002063 00003063 00003003 00006003 00007003 00003023 00007023 \
02001013 40001013 02005013 60005013 \
40001033 40007033 20000033 80000033 42000033 60005033 06000033 04004033 \
0200003b 0200202f 02000053 0200000b \
0000100f 0000200f 0000700f \
30200073 10500073 00001073 30001073 00200073 000000f3 00008073 00100173 02000073 \
00000001 00000002 00004501 00008082 0000000b 0000001b 0000003b 0000002f 00000007 00000053 0000007f 00000057 \
00000030 00000072 fffffff2";

#[test]
fn words_of_no_row(rt: HostRuntime) {
    for text in WORDS_OF_NO_ROW.split(' ') {
        let word = u32::from_str_radix(text, 16).expect(&rt, "no word");
        assert_eq!(rt; decode(word), None, "decoding {text}");
    }
}

#[test]
fn fields_out_of_range(rt: HostRuntime) {
    let (rd, rs1, rs2) = (0, 0, 32);
    for instr in [
        Instr::Lui { rd: 32, imm: 0 },
        Instr::Auipc { rd, imm: 0x10_0000 },
        Instr::Jal { rd, imm: 1048576 },
        Instr::Jal { rd, imm: -1 },
        Instr::Branch {
            op: BranchOp::Beq,
            rs1,
            rs2: 0,
            imm: -4098,
        },
        Instr::Branch {
            op: BranchOp::Beq,
            rs1,
            rs2: 0,
            imm: 3,
        },
        Instr::Load {
            op: LoadOp::Lw,
            rd,
            rs1,
            imm: -2049,
        },
        Instr::Store {
            op: StoreOp::Sw,
            rs1,
            rs2: 0,
            imm: 2048,
        },
        Instr::Shift {
            op: ShiftOp::Slli,
            rd,
            rs1,
            shamt: 32,
        },
        Instr::Reg {
            op: RegOp::Add,
            rd,
            rs1,
            rs2,
        },
        Instr::Mul {
            op: MulOp::Remu,
            rd,
            rs1,
            rs2,
        },
        Instr::Fence {
            rd,
            rs1,
            imm: 0x1000,
        },
    ] {
        assert_eq!(rt; encode(&instr), None, "encoding {instr:?}");
    }
}
