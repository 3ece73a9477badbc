//! What the operations make of the values of registers and immediates.

ghost use Rattle.std.specs.Prelude.{◌≡◌, ◌<◌, ◌*ℤ◌};
ghost use Rattle.rv_core.specs.Effects.{signed_of, upper_bits, quotient_signed, remainder_signed};
ghost use Rattle.rv_core.specs.Decoded.{reg_value, mul_value, imm_value, shift_value, is_taken, load_width, is_signed_load, store_width};

use history::Width;
use rv_decode::{BranchOp, ImmOp, LoadOp, MulOp, RegOp, ShiftOp, StoreOp};

// An operation on two registers.
pub fn register_result(op: RegOp, a: u32, b: u32) -> u32
    ensures { result ≡ reg_value op a b }
{
    match op {
        RegOp::Add => a.wrapping_add(b),
        RegOp::Sub => a.wrapping_sub(b),
        RegOp::Sll => a.wrapping_shl(b),
        RegOp::Slt => u32::from(a.cast_signed() < b.cast_signed()),
        RegOp::Sltu => u32::from(a < b),
        RegOp::Xor => a ^ b,
        RegOp::Srl => a.wrapping_shr(b),
        RegOp::Sra => a.cast_signed().wrapping_shr(b).cast_unsigned(),
        RegOp::Or => a | b,
        RegOp::And => a & b,
    }
}

// The product of signed numbers.
fn signed_product(a: u32, b: u32) -> i64
    ensures { result ≡ signed_of a *ℤ signed_of b }
{
    i64::from(a.cast_signed()) * i64::from(b.cast_signed())
}

// The upper 32 bits of a signed product.
fn upper_of_signed(product: i64) -> u32
    ensures { result ≡ upper_bits product }
{
    (product.cast_unsigned() >> 32) as u32
}

// The quotient of signed numbers, rounded towards zero.
fn signed_quotient(a: u32, b: u32) -> u32
    ensures { result ≡ quotient_signed a b }
{
    if b == 0 {
        return u32::MAX;
    }
    let quotient = a.cast_signed().wrapping_div(b.cast_signed());
    quotient.cast_unsigned()
}

// The remainder of signed numbers, with the dividend's sign.
fn signed_remainder(a: u32, b: u32) -> u32
    ensures { result ≡ remainder_signed a b }
{
    if b == 0 {
        return a;
    }
    let remainder = a.cast_signed().wrapping_rem(b.cast_signed());
    remainder.cast_unsigned()
}

// A multiplication or a division of two registers.
pub fn multiply_result(op: MulOp, a: u32, b: u32) -> u32
    ensures { result ≡ mul_value op a b }
{
    match op {
        MulOp::Mul => a.wrapping_mul(b),
        MulOp::Mulh => upper_of_signed(signed_product(a, b)),
        MulOp::Mulhsu => upper_of_signed(i64::from(a.cast_signed()) * i64::from(b)),
        MulOp::Mulhu => (u64::from(a) * u64::from(b) >> 32) as u32,
        MulOp::Div => signed_quotient(a, b),
        MulOp::Divu => a.checked_div(b).unwrap_or(u32::MAX),
        MulOp::Rem => signed_remainder(a, b),
        MulOp::Remu => a.checked_rem(b).unwrap_or(a),
    }
}

// An operation on a register and an immediate.
pub fn immediate_result(op: ImmOp, a: u32, imm: i32) -> u32
    ensures { result ≡ imm_value op a imm }
{
    match op {
        ImmOp::Addi => a.wrapping_add_signed(imm),
        ImmOp::Slti => u32::from(a.cast_signed() < imm),
        ImmOp::Sltiu => u32::from(a < imm.cast_unsigned()),
        ImmOp::Xori => a ^ imm.cast_unsigned(),
        ImmOp::Ori => a | imm.cast_unsigned(),
        ImmOp::Andi => a & imm.cast_unsigned(),
    }
}

// A shift by a constant.
pub fn shift_result(op: ShiftOp, a: u32, shamt: u32) -> u32
    requires { shamt < 32 }
    ensures { result ≡ shift_value op a shamt }
{
    match op {
        ShiftOp::Slli => a << shamt,
        ShiftOp::Srli => a >> shamt,
        ShiftOp::Srai => (a.cast_signed() >> shamt).cast_unsigned(),
    }
}

// The branch is taken.
pub fn taken(op: BranchOp, a: u32, b: u32) -> bool
    ensures { result ≡ is_taken op a b }
{
    match op {
        BranchOp::Beq => a == b,
        BranchOp::Bne => a != b,
        BranchOp::Blt => a.cast_signed() < b.cast_signed(),
        BranchOp::Bge => a.cast_signed() >= b.cast_signed(),
        BranchOp::Bltu => a < b,
        BranchOp::Bgeu => a >= b,
    }
}

pub fn width_of_load(op: LoadOp) -> Width
    ensures { result ≡ load_width op }
{
    match op {
        LoadOp::Lb | LoadOp::Lbu => Width::Byte,
        LoadOp::Lh | LoadOp::Lhu => Width::Half,
        LoadOp::Lw => Width::Word,
    }
}

pub fn signed_load(op: LoadOp) -> bool
    ensures { result ≡ is_signed_load op }
{
    match op {
        LoadOp::Lb | LoadOp::Lh => true,
        LoadOp::Lw | LoadOp::Lbu | LoadOp::Lhu => false,
    }
}

pub fn width_of_store(op: StoreOp) -> Width
    ensures { result ≡ store_width op }
{
    match op {
        StoreOp::Sb => Width::Byte,
        StoreOp::Sh => Width::Half,
        StoreOp::Sw => Width::Word,
    }
}
