// From an instruction to its word: what its row fixes, and its operands at the places of its format.

ghost use Rattle.std.specs.Prelude.{◌≡◌, ◌+◌, ◌<◌, ◌≤◌, ◌^◌, ◌&&◌, nat_lt, if◌then◌else◌, Some, None};
ghost use Rattle.rv_decode.specs.Table.{fixed};
ghost use Rattle.rv_decode.specs.Words as w;
ghost use Rattle.rv_decode.specs.Words.{fixed_bits, imm_bits, branch_row, load_row, store_row, imm_row, shift_row, reg_row, mul_row, r_operands, i_operands, s_operands, b_operands, u_operands, j_operands, word_of};

use crate::instruction::{BranchOp, ImmOp, Instr, LoadOp, MulOp, RegOp, ShiftOp, StoreOp};

// What the rows of the operations fix: the opcode, funct3 at bit 12 and funct7 at bit 25.

fn branch_bits(op: BranchOp) -> u32
    ensures bits { result ≡ fixed_bits (fixed (branch_row op)) }
    ensures small { result ≤ 0x707f }
{
    match op {
        BranchOp::Beq => 0x0063,
        BranchOp::Bne => 0x1063,
        BranchOp::Blt => 0x4063,
        BranchOp::Bge => 0x5063,
        BranchOp::Bltu => 0x6063,
        BranchOp::Bgeu => 0x7063,
    }
}

fn load_bits(op: LoadOp) -> u32
    ensures bits { result ≡ fixed_bits (fixed (load_row op)) }
    ensures small { result ≤ 0x707f }
{
    match op {
        LoadOp::Lb => 0x0003,
        LoadOp::Lh => 0x1003,
        LoadOp::Lw => 0x2003,
        LoadOp::Lbu => 0x4003,
        LoadOp::Lhu => 0x5003,
    }
}

fn store_bits(op: StoreOp) -> u32
    ensures bits { result ≡ fixed_bits (fixed (store_row op)) }
    ensures small { result ≤ 0x707f }
{
    match op {
        StoreOp::Sb => 0x0023,
        StoreOp::Sh => 0x1023,
        StoreOp::Sw => 0x2023,
    }
}

fn imm_op_bits(op: ImmOp) -> u32
    ensures bits { result ≡ fixed_bits (fixed (imm_row op)) }
    ensures small { result ≤ 0x707f }
{
    match op {
        ImmOp::Addi => 0x0013,
        ImmOp::Slti => 0x2013,
        ImmOp::Sltiu => 0x3013,
        ImmOp::Xori => 0x4013,
        ImmOp::Ori => 0x6013,
        ImmOp::Andi => 0x7013,
    }
}

fn shift_bits(op: ShiftOp) -> u32
    ensures bits { result ≡ fixed_bits (fixed (shift_row op)) }
    ensures small { result < 2 ^ 31 }
{
    match op {
        ShiftOp::Slli => 0x0000_1013,
        ShiftOp::Srli => 0x0000_5013,
        ShiftOp::Srai => 0x4000_5013,
    }
}

fn reg_bits(op: RegOp) -> u32
    ensures bits { result ≡ fixed_bits (fixed (reg_row op)) }
    ensures small { result < 2 ^ 31 }
{
    match op {
        RegOp::Add => 0x0000_0033,
        RegOp::Sub => 0x4000_0033,
        RegOp::Sll => 0x0000_1033,
        RegOp::Slt => 0x0000_2033,
        RegOp::Sltu => 0x0000_3033,
        RegOp::Xor => 0x0000_4033,
        RegOp::Srl => 0x0000_5033,
        RegOp::Sra => 0x4000_5033,
        RegOp::Or => 0x0000_6033,
        RegOp::And => 0x0000_7033,
    }
}

fn mul_bits(op: MulOp) -> u32
    ensures bits { result ≡ fixed_bits (fixed (mul_row op)) }
    ensures small { result < 2 ^ 31 }
{
    match op {
        MulOp::Mul => 0x0200_0033,
        MulOp::Mulh => 0x0200_1033,
        MulOp::Mulhsu => 0x0200_2033,
        MulOp::Mulhu => 0x0200_3033,
        MulOp::Div => 0x0200_4033,
        MulOp::Divu => 0x0200_5033,
        MulOp::Rem => 0x0200_6033,
        MulOp::Remu => 0x0200_7033,
    }
}

fn is_register(number: u32) -> bool
    ensures { result ≡ w.is_register number }
{
    number < 32
}

fn is_imm12(imm: i32) -> bool
    ensures { result ≡ w.is_imm12 imm }
{
    -2048 <= imm && imm <= 2047
}

fn is_branch_offset(imm: i32) -> bool
    ensures { result ≡ w.is_branch_offset imm }
{
    -4096 <= imm && imm <= 4094 && imm % 2 == 0
}

fn is_jump_offset(imm: i32) -> bool
    ensures { result ≡ w.is_jump_offset imm }
{
    -0x10_0000 <= imm && imm <= 0xf_fffe && imm % 2 == 0
}

// The words of the formats (RV32I, "Base Instruction Formats"), where each operand is in its range. `base` is
// what the row fixes.

fn r_word(base: u32, rd: u32, rs1: u32, rs2: u32) -> Option<u32>
    requires { base < 2 ^ 31 }
    ensures { result ≡ (if w.is_register rd && w.is_register rs1 && w.is_register rs2
        then Some (base + r_operands rd rs1 rs2) else None) }
{
    if !(is_register(rd) && is_register(rs1) && is_register(rs2)) {
        return None;
    }
    Some(base + rd * 0x80 + rs1 * 0x8000 + rs2 * 0x10_0000)
}

fn i_word(base: u32, rd: u32, rs1: u32, imm: i32) -> Option<u32>
    requires { base ≤ 0x707f }
    ensures { result ≡ (if w.is_register rd && w.is_register rs1 && w.is_imm12 imm
        then Some (base + i_operands rd rs1 (imm_bits imm)) else None) }
{
    if !(is_register(rd) && is_register(rs1) && is_imm12(imm)) {
        return None;
    }
    let bits = imm.cast_unsigned();
    Some(base + rd * 0x80 + rs1 * 0x8000 + (bits & 0xfff) * 0x10_0000)
}

fn s_word(base: u32, rs1: u32, rs2: u32, imm: i32) -> Option<u32>
    requires { base ≤ 0x707f }
    ensures { result ≡ (if w.is_register rs1 && w.is_register rs2 && w.is_imm12 imm
        then Some (base + s_operands rs1 rs2 (imm_bits imm)) else None) }
{
    if !(is_register(rs1) && is_register(rs2) && is_imm12(imm)) {
        return None;
    }
    let bits = imm.cast_unsigned();
    let low = (bits & 0x1f) * 0x80;
    let high = ((bits >> 5) & 0x7f) * 0x200_0000;
    Some(base + low + rs1 * 0x8000 + rs2 * 0x10_0000 + high)
}

fn b_word(base: u32, rs1: u32, rs2: u32, imm: i32) -> Option<u32>
    requires { base ≤ 0x707f }
    ensures { result ≡ (if w.is_register rs1 && w.is_register rs2 && w.is_branch_offset imm
        then Some (base + b_operands rs1 rs2 (imm_bits imm)) else None) }
{
    if !(is_register(rs1) && is_register(rs2) && is_branch_offset(imm)) {
        return None;
    }
    let bits = imm.cast_unsigned();
    let low = ((bits >> 11) & 1) * 0x80 + ((bits >> 1) & 0xf) * 0x100;
    let high = ((bits >> 5) & 0x3f) * 0x200_0000 + ((bits >> 12) & 1) * 0x8000_0000;
    Some(base + low + rs1 * 0x8000 + rs2 * 0x10_0000 + high)
}

fn u_word(base: u32, rd: u32, imm: u32) -> Option<u32>
    requires { base < 2 ^ 7 }
    ensures { result ≡ (if w.is_register rd && nat_lt imm (2 ^ 20)
        then Some (base + u_operands rd imm) else None) }
{
    if !(is_register(rd) && imm < 0x10_0000) {
        return None;
    }
    Some(base + rd * 0x80 + imm * 0x1000)
}

fn j_word(base: u32, rd: u32, imm: i32) -> Option<u32>
    requires { base < 2 ^ 7 }
    ensures { result ≡ (if w.is_register rd && w.is_jump_offset imm
        then Some (base + j_operands rd (imm_bits imm)) else None) }
{
    if !(is_register(rd) && is_jump_offset(imm)) {
        return None;
    }
    let bits = imm.cast_unsigned();
    let low = ((bits >> 12) & 0xff) * 0x1000 + ((bits >> 11) & 1) * 0x10_0000;
    let high = ((bits >> 1) & 0x3ff) * 0x20_0000 + ((bits >> 20) & 1) * 0x8000_0000;
    Some(base + rd * 0x80 + low + high)
}

// FENCE, whose upper 12 bits (fm, predecessors and successors) are kept as they are.
fn fence_word(rd: u32, rs1: u32, imm: u32) -> Option<u32>
    ensures { result ≡ (if w.is_register rd && w.is_register rs1 && nat_lt imm (2 ^ 12)
        then Some (0b0001111 + i_operands rd rs1 imm) else None) }
{
    if !(is_register(rd) && is_register(rs1) && imm < 0x1000) {
        return None;
    }
    Some(0b0001111 + rd * 0x80 + rs1 * 0x8000 + imm * 0x10_0000)
}

/// The word of an instruction, or `None` where a field isn't in its range (`Instr` has the ranges;
/// RISC-V Unprivileged ISA, "RV32/64G Instruction Set Listings").
#[tactic(auto, unfolding(crate::specs::Words::word_of))]
pub fn encode(instr: &Instr) -> Option<u32>
    ensures { result ≡ word_of instr.now }
{
    match *instr {
        Instr::Lui { rd, imm } => u_word(0b0110111, rd, imm),
        Instr::Auipc { rd, imm } => u_word(0b0010111, rd, imm),
        Instr::Jal { rd, imm } => j_word(0b1101111, rd, imm),
        Instr::Jalr { rd, rs1, imm } => i_word(0b1100111, rd, rs1, imm),
        Instr::Branch { op, rs1, rs2, imm } => b_word(branch_bits(op), rs1, rs2, imm),
        Instr::Load { op, rd, rs1, imm } => i_word(load_bits(op), rd, rs1, imm),
        Instr::Store { op, rs1, rs2, imm } => s_word(store_bits(op), rs1, rs2, imm),
        Instr::Imm { op, rd, rs1, imm } => i_word(imm_op_bits(op), rd, rs1, imm),
        Instr::Shift { op, rd, rs1, shamt } => r_word(shift_bits(op), rd, rs1, shamt),
        Instr::Reg { op, rd, rs1, rs2 } => r_word(reg_bits(op), rd, rs1, rs2),
        Instr::Mul { op, rd, rs1, rs2 } => r_word(mul_bits(op), rd, rs1, rs2),
        Instr::Fence { rd, rs1, imm } => fence_word(rd, rs1, imm),
        Instr::Ecall => Some(0x0000_0073),
        Instr::Ebreak => Some(0x0010_0073),
    }
}
