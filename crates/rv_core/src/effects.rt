//! The effect of an instruction word on the registers and the pc.

ghost use Rattle.std.specs.Prelude.{◌≡◌, ◌%◌, ◌^◌, ◌<◌};
ghost use Rattle.history.specs.Layout.{width_bytes};
ghost use Rattle.rv_core.specs.Effects as spec;
ghost use Rattle.rv_core.specs.Decoded.{instr_effect, HasRegisters, IsProperEffect, store_width};

use crate::values::{
    immediate_result, multiply_result, register_result, shift_result, signed_load, taken,
    width_of_load, width_of_store,
};
use crate::waits::{Effect, TrapKind};
use history::Width;
use rv_decode::{Instr, StoreOp, decode};

// The address of the next word.
pub fn next_word(pc: u32) -> u32
    requires { pc % 4 ≡ 0 }
    ensures value { result ≡ spec.next pc }
    ensures on_word { result % 4 ≡ 0 }
{
    pc.wrapping_add(4)
}

// A jump, with the address of the next word in `rd`.
#[inline(always)]
fn jump(rd: u32, pc: u32, target: u32) -> Effect
    requires register { rd < 32 }
    requires on_word { pc % 4 ≡ 0 }
    ensures value { result ≡ spec.jump_effect rd pc target }
    ensures proper { IsProperEffect result }
{
    if target % 4 != 0 {
        return Effect::Traps(TrapKind::FetchMisaligned);
    }
    Effect::Writes {
        rd,
        value: next_word(pc),
        pc: target,
    }
}

// A branch; one that isn't taken never traps.
#[inline(always)]
fn branch(is_taken: bool, pc: u32, target: u32) -> Effect
    requires { pc % 4 ≡ 0 }
    ensures value { result ≡ spec.branch_effect is_taken pc target }
    ensures proper { IsProperEffect result }
{
    if !is_taken {
        return Effect::Goes { pc: next_word(pc) };
    }
    if target % 4 != 0 {
        return Effect::Traps(TrapKind::FetchMisaligned);
    }
    Effect::Goes { pc: target }
}

// The lowest bytes of a value.
fn low_bytes(width: Width, value: u32) -> u32
    ensures value { result ≡ value % 256 ^ width_bytes width }
    ensures small { result < 256 ^ width_bytes width }
{
    match width {
        Width::Byte => value % 0x100,
        Width::Half => value % 0x1_0000,
        Width::Word => value,
    }
}

// A store of the lowest bytes of a value.
#[inline(always)]
fn store(op: StoreOp, addr: u32, value: u32) -> Effect
    ensures value { result ≡ Effect.Stores (store_width op) addr (value % 256 ^ width_bytes (store_width op)) }
    ensures proper { IsProperEffect result }
{
    let width = width_of_store(op);
    Effect::Stores {
        width,
        addr,
        value: low_bytes(width, value),
    }
}

// The effect of an instruction on the registers `x` at `pc`.
#[inline(always)]
fn executed(instr: Instr, x: &[u32; 32], pc: u32) -> Effect
    requires registers { HasRegisters instr }
    requires on_word { pc % 4 ≡ 0 }
    ensures value { result ≡ instr_effect instr x.now pc }
    ensures proper { IsProperEffect result }
{
    match instr {
        Instr::Lui { rd, imm } => Effect::Writes {
            rd,
            value: imm * 0x1000,
            pc: next_word(pc),
        },
        Instr::Auipc { rd, imm } => Effect::Writes {
            rd,
            value: pc.wrapping_add(imm * 0x1000),
            pc: next_word(pc),
        },
        Instr::Jal { rd, imm } => jump(rd, pc, pc.wrapping_add_signed(imm)),
        Instr::Jalr { rd, rs1, imm } => {
            jump(rd, pc, x[rs1 as usize].wrapping_add_signed(imm) / 2 * 2)
        }
        Instr::Branch { op, rs1, rs2, imm } => branch(
            taken(op, x[rs1 as usize], x[rs2 as usize]),
            pc,
            pc.wrapping_add_signed(imm),
        ),
        Instr::Load { op, rd, rs1, imm } => Effect::Loads {
            width: width_of_load(op),
            signed: signed_load(op),
            addr: x[rs1 as usize].wrapping_add_signed(imm),
            rd,
        },
        Instr::Store { op, rs1, rs2, imm } => store(
            op,
            x[rs1 as usize].wrapping_add_signed(imm),
            x[rs2 as usize],
        ),
        Instr::Imm { op, rd, rs1, imm } => Effect::Writes {
            rd,
            value: immediate_result(op, x[rs1 as usize], imm),
            pc: next_word(pc),
        },
        Instr::Shift { op, rd, rs1, shamt } => Effect::Writes {
            rd,
            value: shift_result(op, x[rs1 as usize], shamt),
            pc: next_word(pc),
        },
        Instr::Reg { op, rd, rs1, rs2 } => Effect::Writes {
            rd,
            value: register_result(op, x[rs1 as usize], x[rs2 as usize]),
            pc: next_word(pc),
        },
        Instr::Mul { op, rd, rs1, rs2 } => Effect::Writes {
            rd,
            value: multiply_result(op, x[rs1 as usize], x[rs2 as usize]),
            pc: next_word(pc),
        },
        Instr::Fence { .. } => Effect::Goes { pc: next_word(pc) },
        Instr::Ecall => Effect::Calls,
        Instr::Ebreak => Effect::Traps(TrapKind::Breakpoint),
    }
}

/// The effect of a word on the registers `x` at `pc`.
#[tactic(auto, using(crate::proofs::DecodedLaws::decoded_effect, crate::proofs::DecodedLaws::illegal_effect, crate::proofs::DecodedLaws::decoded_registers))]
#[inline(always)]
pub fn effect_of(word: u32, x: &[u32; 32], pc: u32) -> Effect
    requires { pc % 4 ≡ 0 }
    ensures value { result ≡ spec.effect_of word x.now pc }
    ensures proper { IsProperEffect result }
{
    let Some(instr) = decode(word) else {
        return Effect::Traps(TrapKind::Illegal);
    };
    executed(instr, x, pc)
}
