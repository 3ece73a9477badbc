// From a word to its instruction: a match on the opcode, then on funct3, then on funct7.

ghost use Rattle.std.specs.Prelude.{◌≡◌, ◌≢◌, ℕ, ◌%◌, ◌<◌, ◌↔◌, Some, None, IsNone, IfSome, IfNone, option_map};
ghost use Rattle.rv_decode.specs.declared.instruction.Instr.{Instr};
ghost use Rattle.rv_decode.specs.Fields as f;
ghost use Rattle.rv_decode.specs.Table.{listed, row_of};
ghost use Rattle.rv_decode.specs.Words.{branch_row, load_row, store_row, imm_row, shift_row, reg_row, mul_row, word_of, instr_of};

use crate::fields::{
    funct3, funct7, imm_b, imm_i, imm_j, imm_s, imm_u, opcode, rd, rest, rs1, rs2, upper12,
};
use crate::instruction::{BranchOp, ImmOp, Instr, LoadOp, MulOp, RegOp, ShiftOp, StoreOp};

#[tactic(auto, unfolding(crate::specs::Table::listed))]
fn branch_op(funct3: u32) -> Option<BranchOp>
    ensures { option_map branch_row result ≡ listed 0b1100011 funct3 0 0 }
{
    match funct3 {
        0b000 => Some(BranchOp::Beq),
        0b001 => Some(BranchOp::Bne),
        0b100 => Some(BranchOp::Blt),
        0b101 => Some(BranchOp::Bge),
        0b110 => Some(BranchOp::Bltu),
        0b111 => Some(BranchOp::Bgeu),
        _ => None,
    }
}

#[tactic(auto, unfolding(crate::specs::Table::listed))]
fn load_op(funct3: u32) -> Option<LoadOp>
    ensures { option_map load_row result ≡ listed 0b0000011 funct3 0 0 }
{
    match funct3 {
        0b000 => Some(LoadOp::Lb),
        0b001 => Some(LoadOp::Lh),
        0b010 => Some(LoadOp::Lw),
        0b100 => Some(LoadOp::Lbu),
        0b101 => Some(LoadOp::Lhu),
        _ => None,
    }
}

#[tactic(auto, unfolding(crate::specs::Table::listed))]
fn store_op(funct3: u32) -> Option<StoreOp>
    ensures { option_map store_row result ≡ listed 0b0100011 funct3 0 0 }
{
    match funct3 {
        0b000 => Some(StoreOp::Sb),
        0b001 => Some(StoreOp::Sh),
        0b010 => Some(StoreOp::Sw),
        _ => None,
    }
}

// The operations with an immediate, all of funct3 but those of the shifts.
#[tactic(auto, unfolding(crate::specs::Table::listed))]
fn imm_op(funct3: u32) -> Option<ImmOp>
    requires { funct3 < 8 }
    ensures found { IfSome result
        (λ op. (f7 : ℕ) → listed 0b0010011 funct3 f7 0 ≡ Some (imm_row op)) }
    ensures shift { IfNone result (funct3 % 4 ≡ 1) }
{
    match funct3 {
        0b000 => Some(ImmOp::Addi),
        0b010 => Some(ImmOp::Slti),
        0b011 => Some(ImmOp::Sltiu),
        0b100 => Some(ImmOp::Xori),
        0b110 => Some(ImmOp::Ori),
        0b111 => Some(ImmOp::Andi),
        _ => None,
    }
}

// The shifts by a constant, whose funct3 are 001 and 101.
#[tactic(auto, unfolding(crate::specs::Table::listed))]
fn shift_op(funct3: u32, funct7: u32) -> Option<ShiftOp>
    requires small { funct3 < 8 }
    requires shift { funct3 % 4 ≡ 1 }
    ensures { option_map shift_row result ≡ listed 0b0010011 funct3 funct7 0 }
{
    match (funct3, funct7) {
        (0b001, 0b000_0000) => Some(ShiftOp::Slli),
        (0b101, 0b000_0000) => Some(ShiftOp::Srli),
        (0b101, 0b010_0000) => Some(ShiftOp::Srai),
        _ => None,
    }
}

#[tactic(auto, unfolding(crate::specs::Table::listed))]
fn reg_op_of_funct7_0(funct3: u32) -> Option<RegOp>
    ensures { option_map reg_row result ≡ listed 0b0110011 funct3 0b0000000 0 }
{
    match funct3 {
        0b000 => Some(RegOp::Add),
        0b001 => Some(RegOp::Sll),
        0b010 => Some(RegOp::Slt),
        0b011 => Some(RegOp::Sltu),
        0b100 => Some(RegOp::Xor),
        0b101 => Some(RegOp::Srl),
        0b110 => Some(RegOp::Or),
        0b111 => Some(RegOp::And),
        _ => None,
    }
}

#[tactic(auto, unfolding(crate::specs::Table::listed))]
fn reg_op_of_funct7_32(funct3: u32) -> Option<RegOp>
    ensures { option_map reg_row result ≡ listed 0b0110011 funct3 0b0100000 0 }
{
    match funct3 {
        0b000 => Some(RegOp::Sub),
        0b101 => Some(RegOp::Sra),
        _ => None,
    }
}

#[tactic(auto, unfolding(crate::specs::Table::listed))]
fn reg_op(funct3: u32, funct7: u32) -> Option<RegOp>
    ensures found { IfSome result (λ op. listed 0b0110011 funct3 funct7 0 ≡ Some (reg_row op)) }
    ensures none { IfNone result (funct7 ≢ 0b0000001 → listed 0b0110011 funct3 funct7 0 ≡ None) }
{
    match funct7 {
        0b000_0000 => reg_op_of_funct7_0(funct3),
        0b010_0000 => reg_op_of_funct7_32(funct3),
        _ => None,
    }
}

// The operations of the M extension, whose funct7 is 0000001.
#[tactic(auto, unfolding(crate::specs::Table::listed))]
fn mul_op(funct3: u32) -> Option<MulOp>
    ensures { option_map mul_row result ≡ listed 0b0110011 funct3 0b0000001 0 }
{
    match funct3 {
        0b000 => Some(MulOp::Mul),
        0b001 => Some(MulOp::Mulh),
        0b010 => Some(MulOp::Mulhsu),
        0b011 => Some(MulOp::Mulhu),
        0b100 => Some(MulOp::Div),
        0b101 => Some(MulOp::Divu),
        0b110 => Some(MulOp::Rem),
        0b111 => Some(MulOp::Remu),
        _ => None,
    }
}

#[tactic(auto, using(crate::proofs::Rows::jalr_rows))]
#[inline(always)]
fn jalr(word: u32) -> Option<Instr>
    requires { f.opcode word ≡ 0b1100111 }
    ensures { result ≡ instr_of word }
{
    match funct3(word) {
        0b000 => Some(Instr::Jalr {
            rd: rd(word),
            rs1: rs1(word),
            imm: imm_i(word),
        }),
        _ => None,
    }
}

#[tactic(auto, using(crate::proofs::Rows::of_branch, crate::proofs::Rows::branch_at, crate::proofs::Rows::at_none))]
#[inline(always)]
fn branch(word: u32) -> Option<Instr>
    requires { f.opcode word ≡ 0b1100011 }
    ensures { result ≡ instr_of word }
{
    let Some(op) = branch_op(funct3(word)) else {
        return None;
    };
    Some(Instr::Branch {
        op,
        rs1: rs1(word),
        rs2: rs2(word),
        imm: imm_b(word),
    })
}

#[tactic(auto, using(crate::proofs::Rows::of_load, crate::proofs::Rows::load_at, crate::proofs::Rows::at_none))]
#[inline(always)]
fn load(word: u32) -> Option<Instr>
    requires { f.opcode word ≡ 0b0000011 }
    ensures { result ≡ instr_of word }
{
    let Some(op) = load_op(funct3(word)) else {
        return None;
    };
    Some(Instr::Load {
        op,
        rd: rd(word),
        rs1: rs1(word),
        imm: imm_i(word),
    })
}

#[tactic(auto, using(crate::proofs::Rows::of_store, crate::proofs::Rows::store_at, crate::proofs::Rows::at_none))]
#[inline(always)]
fn store(word: u32) -> Option<Instr>
    requires { f.opcode word ≡ 0b0100011 }
    ensures { result ≡ instr_of word }
{
    let Some(op) = store_op(funct3(word)) else {
        return None;
    };
    Some(Instr::Store {
        op,
        rs1: rs1(word),
        rs2: rs2(word),
        imm: imm_s(word),
    })
}

#[tactic(auto, using(crate::proofs::Rows::of_immediate, crate::proofs::Rows::shift_at, crate::proofs::Rows::at_none))]
#[inline(always)]
fn shift(word: u32) -> Option<Instr>
    requires opcode { f.opcode word ≡ 0b0010011 }
    requires shift { f.funct3 word % 4 ≡ 1 }
    ensures { result ≡ instr_of word }
{
    let Some(op) = shift_op(funct3(word), funct7(word)) else {
        return None;
    };
    Some(Instr::Shift {
        op,
        rd: rd(word),
        rs1: rs1(word),
        shamt: rs2(word),
    })
}

#[tactic(auto, using(crate::proofs::Rows::of_immediate, crate::proofs::Rows::imm_at, crate::proofs::Rows::at_none))]
#[inline(always)]
fn immediate(word: u32) -> Option<Instr>
    requires { f.opcode word ≡ 0b0010011 }
    ensures { result ≡ instr_of word }
{
    let Some(op) = imm_op(funct3(word)) else {
        return shift(word);
    };
    Some(Instr::Imm {
        op,
        rd: rd(word),
        rs1: rs1(word),
        imm: imm_i(word),
    })
}

#[tactic(auto, using(crate::proofs::Rows::of_register, crate::proofs::Rows::mul_at, crate::proofs::Rows::at_none))]
#[inline(always)]
fn multiply(word: u32) -> Option<Instr>
    requires opcode { f.opcode word ≡ 0b0110011 }
    requires others { f.funct7 word ≢ 0b0000001 → row_of word ≡ None }
    ensures { result ≡ instr_of word }
{
    if funct7(word) != 0b000_0001 {
        return None;
    }
    let Some(op) = mul_op(funct3(word)) else {
        return None;
    };
    Some(Instr::Mul {
        op,
        rd: rd(word),
        rs1: rs1(word),
        rs2: rs2(word),
    })
}

#[tactic(auto, using(crate::proofs::Rows::of_register, crate::proofs::Rows::reg_at, crate::proofs::Rows::at_none))]
#[inline(always)]
fn register(word: u32) -> Option<Instr>
    requires { f.opcode word ≡ 0b0110011 }
    ensures { result ≡ instr_of word }
{
    let Some(op) = reg_op(funct3(word), funct7(word)) else {
        return multiply(word);
    };
    Some(Instr::Reg {
        op,
        rd: rd(word),
        rs1: rs1(word),
        rs2: rs2(word),
    })
}

#[tactic(auto, using(crate::proofs::Rows::fence_rows))]
#[inline(always)]
fn fence(word: u32) -> Option<Instr>
    requires { f.opcode word ≡ 0b0001111 }
    ensures { result ≡ instr_of word }
{
    match funct3(word) {
        0b000 => Some(Instr::Fence {
            rd: rd(word),
            rs1: rs1(word),
            imm: upper12(word),
        }),
        _ => None,
    }
}

#[tactic(auto, using(crate::proofs::Rows::system_rows))]
#[inline(always)]
fn system(word: u32) -> Option<Instr>
    requires { f.opcode word ≡ 0b1110011 }
    ensures { result ≡ instr_of word }
{
    match rest(word) {
        0 => Some(Instr::Ecall),
        0b0000_0000_0001_00000_000_00000 => Some(Instr::Ebreak),
        _ => None,
    }
}

#[tactic(auto, using(crate::proofs::Rows::of_lui, crate::proofs::Rows::of_auipc, crate::proofs::Rows::of_jal, crate::proofs::Rows::no_instr))]
#[inline(always)]
fn decoded(word: u32) -> Option<Instr>
    ensures { result ≡ instr_of word }
{
    match opcode(word) {
        0b0110111 => Some(Instr::Lui {
            rd: rd(word),
            imm: imm_u(word),
        }),
        0b0010111 => Some(Instr::Auipc {
            rd: rd(word),
            imm: imm_u(word),
        }),
        0b1101111 => Some(Instr::Jal {
            rd: rd(word),
            imm: imm_j(word),
        }),
        0b1100111 => jalr(word),
        0b1100011 => branch(word),
        0b0000011 => load(word),
        0b0100011 => store(word),
        0b0010011 => immediate(word),
        0b0110011 => register(word),
        0b0001111 => fence(word),
        0b1110011 => system(word),
        _ => None,
    }
}

/// The instruction of a word of 32 bits, or `None` where no row of the manual's listing of RV32IM fits the word
/// (RISC-V Unprivileged ISA, "RV32/64G Instruction Set Listings").
#[inline(always)]
pub fn decode(word: u32) -> Option<Instr>
    ensures value { result ≡ instr_of word }
    // What is found has this word.
    ensures found { IfSome result (λ instr. word_of instr ≡ Some word) }
    // An instruction that has this word is found.
    ensures only { (instr : Instr) → word_of instr ≡ Some word → result ≡ Some instr }
    // Nothing is found exactly where no row fits the word.
    ensures none { IsNone result ↔ (row_of word ≡ None) }
{
    decoded(word)
}
