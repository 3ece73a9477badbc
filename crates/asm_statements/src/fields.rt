// Numbers in their fields.

ghost use Rattle.std.specs.Prelude.{◌≡◌, ◌<◌, ◌≤◌, ◌^◌, false, MatchOption};
ghost use Rattle.std.specs.Result.{result_map_both};
ghost use Rattle.rv_decode.specs.declared.instruction.Instr.{Instr};
ghost use Rattle.asm_statements.specs.Orders.{Order, order_of, low_bits, below, coded, load};
ghost use Rattle.rv_decode.specs.Words.{is_imm12, is_branch_offset, is_jump_offset};

use crate::statements::Statement;
use asm_lines::Kind;
use rv_decode::{BranchOp, ImmOp, Instr, LoadOp, StoreOp, encode};

/// The number, where it is below the limit and not negative.
pub fn below(limit: u32, number: i64) -> Result<u32, Kind>
    ensures { result ≡ below limit number }
{
    if number < 0 || number >= i64::from(limit) {
        return Err(Kind::Range);
    }
    Ok(number as u32)
}

/// The number as an address.
pub fn address(number: i64) -> Result<u32, Kind>
    ensures { result ≡ below (2 ^ 32) number }
{
    if number < 0 || number > 0xffff_ffff {
        return Err(Kind::Range);
    }
    Ok(number as u32)
}

/// The low 32 bits of a number in two's complement.
pub fn word_bits(number: i64) -> u32
    ensures { result ≡ low_bits 32 number }
{
    (number.cast_unsigned() % 0x1_0000_0000) as u32
}

/// The low 8 bits of a number in two's complement.
pub fn byte_bits(number: i64) -> u8
    ensures { result ≡ low_bits 8 number }
{
    (number.cast_unsigned() % 0x100) as u8
}

#[tactic(auto, unfolding(crate::specs::Orders::coded))]
fn coded<'a>(instr: Instr) -> Result<Statement<'a>, Kind>
    ensures { result_map_both order_of (λ kind. kind) result ≡ coded instr }
{
    match encode(&instr) {
        Some(_) => Ok(Statement::Plain(instr)),
        None => Err(Kind::Range),
    }
}

// The number as an immediate of 12 bits, as a branch's offset, and as a jump's.

fn imm12_of(number: i64) -> Option<i32>
    ensures { MatchOption result (is_imm12 number ≡ false) (λ imm. imm ≡ number) }
{
    if -2048 <= number && number <= 2047 {
        return Some(number as i32);
    }
    None
}

fn branch_offset_of(number: i64) -> Option<i32>
    ensures { MatchOption result (is_branch_offset number ≡ false) (λ imm. imm ≡ number) }
{
    if -4096 <= number && number <= 4094 && number % 2 == 0 {
        return Some(number as i32);
    }
    None
}

fn jump_offset_of(number: i64) -> Option<i32>
    ensures { MatchOption result (is_jump_offset number ≡ false) (λ imm. imm ≡ number) }
{
    if -0x10_0000 <= number && number <= 0xf_fffe && number % 2 == 0 {
        return Some(number as i32);
    }
    None
}

#[tactic(auto, using(crate::proofs::Ranges::no_imm))]
pub fn imm_word<'a>(op: ImmOp, rd: u32, rs1: u32, number: i64) -> Result<Statement<'a>, Kind>
    ensures { result_map_both order_of (λ kind. kind) result ≡ coded (Instr.Imm op rd rs1 number) }
{
    let Some(imm) = imm12_of(number) else {
        return Err(Kind::Range);
    };
    coded(Instr::Imm { op, rd, rs1, imm })
}

#[tactic(auto, using(crate::proofs::Ranges::no_load))]
pub fn load_word<'a>(op: LoadOp, rd: u32, rs1: u32, number: i64) -> Result<Statement<'a>, Kind>
    ensures { result_map_both order_of (λ kind. kind) result ≡ coded (Instr.Load op rd rs1 number) }
{
    let Some(imm) = imm12_of(number) else {
        return Err(Kind::Range);
    };
    coded(Instr::Load { op, rd, rs1, imm })
}

#[tactic(auto, using(crate::proofs::Ranges::no_store))]
pub fn store_word<'a>(op: StoreOp, rs1: u32, rs2: u32, number: i64) -> Result<Statement<'a>, Kind>
    ensures { result_map_both order_of (λ kind. kind) result ≡ coded (Instr.Store op rs1 rs2 number) }
{
    let Some(imm) = imm12_of(number) else {
        return Err(Kind::Range);
    };
    coded(Instr::Store { op, rs1, rs2, imm })
}

#[tactic(auto, using(crate::proofs::Ranges::no_jalr))]
pub fn jalr_word<'a>(rd: u32, rs1: u32, number: i64) -> Result<Statement<'a>, Kind>
    ensures { result_map_both order_of (λ kind. kind) result ≡ coded (Instr.Jalr rd rs1 number) }
{
    let Some(imm) = imm12_of(number) else {
        return Err(Kind::Range);
    };
    coded(Instr::Jalr { rd, rs1, imm })
}

#[tactic(auto, using(crate::proofs::Ranges::no_jal))]
pub fn jal_word<'a>(rd: u32, offset: i64) -> Result<Statement<'a>, Kind>
    ensures { result_map_both order_of (λ kind. kind) result ≡ coded (Instr.Jal rd offset) }
{
    let Some(imm) = jump_offset_of(offset) else {
        return Err(Kind::Range);
    };
    coded(Instr::Jal { rd, imm })
}

#[tactic(auto, using(crate::proofs::Ranges::no_branch))]
pub fn branch_word<'a>(op: BranchOp, rs1: u32, rs2: u32, offset: i64) -> Result<Statement<'a>, Kind>
    ensures { result_map_both order_of (λ kind. kind) result ≡ coded (Instr.Branch op rs1 rs2 offset) }
{
    let Some(imm) = branch_offset_of(offset) else {
        return Err(Kind::Range);
    };
    coded(Instr::Branch { op, rs1, rs2, imm })
}

/// `li`: one `addi` where the number fits it, else a pair.
pub fn load<'a>(rd: u32, number: i64) -> Statement<'a>
    ensures { order_of result ≡ load rd number }
{
    if -2048 <= number && number < 2048 {
        return Statement::Plain(Instr::Imm {
            op: ImmOp::Addi,
            rd,
            rs1: 0,
            imm: number as i32,
        });
    }
    let value = word_bits(number);
    Statement::LoadWide { rd, value }
}
