// What a statement orders, by its form and its operands. Each reader takes the operands that its form asks for; of the
// faults of two operands the one of the smaller kind is told.

ghost use Rattle.std.specs.Prelude.{◌≡◌, ℕ, ◌∷◌, [], List};
ghost use Rattle.std.specs.Option.{option_map};
ghost use Rattle.std.specs.Result.{result_map_both};
ghost use Rattle.asm_lines.specs.Operands.{operands_of, said, register_operand, value_operand, number_operand, label_operand, indexed_operand};
ghost use Rattle.asm_lines.specs.Cuts.{statement_words};
ghost use Rattle.asm_lines.specs.Kinds as kinds_spec;
ghost use Rattle.asm_statements.specs.Forms.{statement_form};
ghost use Rattle.asm_statements.specs.Orders.{order_of, if_none, if_one, if_two, if_three, with_one, with_two, with_three, ordered, order_in, register_and_upper, jump, branch};

use crate::cells::with_cells;
use crate::fields::{
    address, below, branch_word, imm_word, jal_word, jalr_word, load, load_word, store_word,
};
use crate::forms::{Binary, Form, Ternary, Unary, form_in};
use crate::statements::Statement;
use asm_lines::{
    Kind, Parts, RawStatement, Value, both, indexed_in, label_in, number_in, parts_in, register_in,
    value_in,
};
use rv_decode::{BranchOp, ImmOp, Instr, LoadOp, MulOp, RegOp, ShiftOp, StoreOp};

type Read<'a> = Result<Statement<'a>, Kind>;

// A register and a target.
#[tactic(auto, using(crate::proofs::Boths::both_seen))]
fn register_and_value<'a>(a: &[u8], b: &'a [u8]) -> Result<(u32, Value<'a>), Kind>
    ensures { result_map_both (λ p. (p.0, said p.1)) (λ kind. kind) result ≡ kinds_spec.both (register_operand a.now) (value_operand b.now) }
{
    both(register_in(a), value_in(b))
}

fn jump<'a>(rd: u32, target: Value<'a>) -> Read<'a>
    ensures { result_map_both order_of (λ kind. kind) result ≡ jump rd (said target.entry) }
{
    match target {
        Value::Label(label) => Ok(Statement::JumpTo { rd, label }),
        Value::Number(offset) => jal_word(rd, offset),
    }
}

fn branch<'a>(op: BranchOp, rs1: u32, rs2: u32, target: Value<'a>) -> Read<'a>
    ensures { result_map_both order_of (λ kind. kind) result ≡ branch op rs1 rs2 (said target.entry) }
{
    match target {
        Value::Label(label) => Ok(Statement::BranchTo {
            op,
            rs1,
            rs2,
            label,
        }),
        Value::Number(offset) => branch_word(op, rs1, rs2, offset),
    }
}

#[tactic(auto, unfolding(crate::specs::Orders::with_one))]
fn with_one(form: Unary, a: &[u8]) -> Read<'_>
    ensures { result_map_both order_of (λ kind. kind) result ≡ with_one form a.now }
{
    match form {
        Unary::J => match value_in(a) {
            Ok(target) => jump(0, target),
            Err(kind) => Err(kind),
        },
        Unary::Jr => match register_in(a) {
            Ok(rs1) => Ok(Statement::Plain(Instr::Jalr { rd: 0, rs1, imm: 0 })),
            Err(kind) => Err(kind),
        },
        Unary::Segment => segment(a),
        Unary::Entry => match label_in(a) {
            Ok(name) => Ok(Statement::Entry(name)),
            Err(kind) => Err(kind),
        },
        Unary::Space => space(a),
    }
}

#[tactic(auto, unfolding(crate::specs::Orders::with_one))]
fn segment(a: &[u8]) -> Read<'_>
    ensures { result_map_both order_of (λ kind. kind) result ≡ with_one Unary.Segment a.now }
{
    let number = number_in(a)?;
    let address = address(number)?;
    Ok(Statement::Begin(address))
}

#[tactic(auto, unfolding(crate::specs::Orders::with_one))]
fn space(a: &[u8]) -> Read<'_>
    ensures { result_map_both order_of (λ kind. kind) result ≡ with_one Unary.Space a.now }
{
    let number = number_in(a)?;
    let count = below(1_048_577, number)?;
    Ok(Statement::Zeros(count))
}

// A register and a field of 20 bits.
fn register_and_upper(a: &[u8], b: &[u8]) -> Result<(u32, u32), Kind>
    ensures { result ≡ register_and_upper a.now b.now }
{
    let (rd, number) = both(register_in(a), number_in(b))?;
    let imm = below(0x10_0000, number)?;
    Ok((rd, imm))
}

#[tactic(auto, unfolding(crate::specs::Orders::with_two))]
fn lui<'a>(a: &[u8], b: &[u8]) -> Read<'a>
    ensures { result_map_both order_of (λ kind. kind) result ≡ with_two Binary.Lui a.now b.now }
{
    let (rd, imm) = register_and_upper(a, b)?;
    Ok(Statement::Plain(Instr::Lui { rd, imm }))
}

#[tactic(auto, unfolding(crate::specs::Orders::with_two))]
fn auipc<'a>(a: &[u8], b: &[u8]) -> Read<'a>
    ensures { result_map_both order_of (λ kind. kind) result ≡ with_two Binary.Auipc a.now b.now }
{
    let (rd, imm) = register_and_upper(a, b)?;
    Ok(Statement::Plain(Instr::Auipc { rd, imm }))
}

#[tactic(auto, unfolding(crate::specs::Orders::with_two))]
fn jal<'a>(a: &[u8], b: &'a [u8]) -> Read<'a>
    ensures { result_map_both order_of (λ kind. kind) result ≡ with_two Binary.Jal a.now b.now }
{
    match register_and_value(a, b) {
        Ok((rd, target)) => jump(rd, target),
        Err(kind) => Err(kind),
    }
}

#[tactic(auto, unfolding(crate::specs::Orders::with_two))]
fn jalr<'a>(a: &[u8], b: &[u8]) -> Read<'a>
    ensures { result_map_both order_of (λ kind. kind) result ≡ with_two Binary.Jalr a.now b.now }
{
    let (rd, (number, rs1)) = both(register_in(a), indexed_in(b))?;
    jalr_word(rd, rs1, number)
}

#[tactic(auto, unfolding(crate::specs::Orders::with_two))]
fn load_from<'a>(op: LoadOp, a: &[u8], b: &[u8]) -> Read<'a>
    ensures { result_map_both order_of (λ kind. kind) result ≡ with_two (Binary.Load op) a.now b.now }
{
    let (rd, (number, rs1)) = both(register_in(a), indexed_in(b))?;
    load_word(op, rd, rs1, number)
}

#[tactic(auto, unfolding(crate::specs::Orders::with_two))]
fn store_to<'a>(op: StoreOp, a: &[u8], b: &[u8]) -> Read<'a>
    ensures { result_map_both order_of (λ kind. kind) result ≡ with_two (Binary.Store op) a.now b.now }
{
    let (rs2, (number, rs1)) = both(register_in(a), indexed_in(b))?;
    store_word(op, rs1, rs2, number)
}

#[tactic(auto, unfolding(crate::specs::Orders::with_two))]
fn mv<'a>(a: &[u8], b: &[u8]) -> Read<'a>
    ensures { result_map_both order_of (λ kind. kind) result ≡ with_two Binary.Mv a.now b.now }
{
    let (rd, rs1) = both(register_in(a), register_in(b))?;
    Ok(Statement::Plain(Instr::Imm {
        op: ImmOp::Addi,
        rd,
        rs1,
        imm: 0,
    }))
}

#[tactic(auto, unfolding(crate::specs::Orders::with_two))]
fn li<'a>(a: &[u8], b: &[u8]) -> Read<'a>
    ensures { result_map_both order_of (λ kind. kind) result ≡ with_two Binary.Li a.now b.now }
{
    let (rd, number) = both(register_in(a), number_in(b))?;
    Ok(load(rd, number))
}

// A register and a label.
#[tactic(auto, using(crate::proofs::Boths::both_seen))]
fn register_and_label<'a>(a: &[u8], b: &'a [u8]) -> Result<(u32, &'a [u8]), Kind>
    ensures { result_map_both (λ p. (p.0, p.1.now)) (λ kind. kind) result ≡ kinds_spec.both (register_operand a.now) (label_operand b.now) }
{
    both(register_in(a), label_in(b))
}

#[tactic(auto, unfolding(crate::specs::Orders::with_two))]
fn la<'a>(a: &[u8], b: &'a [u8]) -> Read<'a>
    ensures { result_map_both order_of (λ kind. kind) result ≡ with_two Binary.La a.now b.now }
{
    match register_and_label(a, b) {
        Ok((rd, label)) => Ok(Statement::LoadAddress { rd, label }),
        Err(kind) => Err(kind),
    }
}

#[tactic(auto, unfolding(crate::specs::Orders::with_two))]
fn branch_zero<'a>(op: BranchOp, a: &[u8], b: &'a [u8]) -> Read<'a>
    ensures { result_map_both order_of (λ kind. kind) result ≡ with_two (Binary.BranchZero op) a.now b.now }
{
    match register_and_value(a, b) {
        Ok((rs1, target)) => branch(op, rs1, 0, target),
        Err(kind) => Err(kind),
    }
}

fn with_two<'a>(form: Binary, a: &'a [u8], b: &'a [u8]) -> Read<'a>
    ensures { result_map_both order_of (λ kind. kind) result ≡ with_two form a.now b.now }
{
    match form {
        Binary::Lui => lui(a, b),
        Binary::Auipc => auipc(a, b),
        Binary::Jal => jal(a, b),
        Binary::Jalr => jalr(a, b),
        Binary::Load(op) => load_from(op, a, b),
        Binary::Store(op) => store_to(op, a, b),
        Binary::Mv => mv(a, b),
        Binary::Li => li(a, b),
        Binary::La => la(a, b),
        Binary::BranchZero(op) => branch_zero(op, a, b),
    }
}

// Two registers and a target.
#[tactic(auto, using(crate::proofs::Boths::both_seen))]
fn registers_and_value<'a>(a: &[u8], b: &[u8], c: &'a [u8]) -> Result<((u32, u32), Value<'a>), Kind>
    ensures { result_map_both (λ p. (p.0, said p.1)) (λ kind. kind) result
        ≡ kinds_spec.both (kinds_spec.both (register_operand a.now) (register_operand b.now)) (value_operand c.now) }
{
    both(both(register_in(a), register_in(b)), value_in(c))
}

#[tactic(auto, unfolding(crate::specs::Orders::with_three))]
fn branch_on<'a>(op: BranchOp, a: &[u8], b: &[u8], c: &'a [u8]) -> Read<'a>
    ensures { result_map_both order_of (λ kind. kind) result ≡ with_three (Ternary.Branch op) a.now b.now c.now }
{
    match registers_and_value(a, b, c) {
        Ok(((rs1, rs2), target)) => branch(op, rs1, rs2, target),
        Err(kind) => Err(kind),
    }
}

#[tactic(auto, unfolding(crate::specs::Orders::with_three))]
fn with_imm<'a>(op: ImmOp, a: &[u8], b: &[u8], c: &[u8]) -> Read<'a>
    ensures { result_map_both order_of (λ kind. kind) result ≡ with_three (Ternary.Imm op) a.now b.now c.now }
{
    let ((rd, rs1), number) = both(both(register_in(a), register_in(b)), number_in(c))?;
    imm_word(op, rd, rs1, number)
}

#[tactic(auto, unfolding(crate::specs::Orders::with_three))]
fn shift<'a>(op: ShiftOp, a: &[u8], b: &[u8], c: &[u8]) -> Read<'a>
    ensures { result_map_both order_of (λ kind. kind) result ≡ with_three (Ternary.Shift op) a.now b.now c.now }
{
    let ((rd, rs1), number) = both(both(register_in(a), register_in(b)), number_in(c))?;
    let shamt = below(32, number)?;
    Ok(Statement::Plain(Instr::Shift { op, rd, rs1, shamt }))
}

#[tactic(auto, unfolding(crate::specs::Orders::with_three))]
fn registers<'a>(op: RegOp, a: &[u8], b: &[u8], c: &[u8]) -> Read<'a>
    ensures { result_map_both order_of (λ kind. kind) result ≡ with_three (Ternary.Reg op) a.now b.now c.now }
{
    let ((rd, rs1), rs2) = both(both(register_in(a), register_in(b)), register_in(c))?;
    Ok(Statement::Plain(Instr::Reg { op, rd, rs1, rs2 }))
}

#[tactic(auto, unfolding(crate::specs::Orders::with_three))]
fn multiply<'a>(op: MulOp, a: &[u8], b: &[u8], c: &[u8]) -> Read<'a>
    ensures { result_map_both order_of (λ kind. kind) result ≡ with_three (Ternary.Mul op) a.now b.now c.now }
{
    let ((rd, rs1), rs2) = both(both(register_in(a), register_in(b)), register_in(c))?;
    Ok(Statement::Plain(Instr::Mul { op, rd, rs1, rs2 }))
}

fn with_three<'a>(form: Ternary, a: &[u8], b: &[u8], c: &'a [u8]) -> Read<'a>
    ensures { result_map_both order_of (λ kind. kind) result ≡ with_three form a.now b.now c.now }
{
    match form {
        Ternary::Branch(op) => branch_on(op, a, b, c),
        Ternary::Imm(op) => with_imm(op, a, b, c),
        Ternary::Shift(op) => shift(op, a, b, c),
        Ternary::Reg(op) => registers(op, a, b, c),
        Ternary::Mul(op) => multiply(op, a, b, c),
    }
}

#[tactic(auto, using(crate::proofs::Counts::many_none))]
fn if_none<'a>(instr: Instr, text: &[u8]) -> Read<'a>
    ensures { result_map_both order_of (λ kind. kind) result ≡ if_none instr (operands_of text.now) }
{
    match parts_in(text) {
        Parts::Zero => Ok(Statement::Plain(instr)),
        Parts::One(..) | Parts::Two(..) | Parts::Three(..) | Parts::More => Err(Kind::Operands),
    }
}

#[tactic(auto, using(crate::proofs::Counts::many_one))]
fn if_one(form: Unary, text: &[u8]) -> Read<'_>
    ensures { result_map_both order_of (λ kind. kind) result ≡ if_one form (operands_of text.now) }
{
    match parts_in(text) {
        Parts::One(a) => with_one(form, a),
        Parts::Zero | Parts::Two(..) | Parts::Three(..) | Parts::More => Err(Kind::Operands),
    }
}

#[tactic(auto, using(crate::proofs::Counts::many_two))]
fn if_two(form: Binary, text: &[u8]) -> Read<'_>
    ensures { result_map_both order_of (λ kind. kind) result ≡ if_two form (operands_of text.now) }
{
    match parts_in(text) {
        Parts::Two(a, b) => with_two(form, a, b),
        Parts::Zero | Parts::One(..) | Parts::Three(..) | Parts::More => Err(Kind::Operands),
    }
}

#[tactic(auto, using(crate::proofs::Counts::many_three))]
fn if_three(form: Ternary, text: &[u8]) -> Read<'_>
    ensures { result_map_both order_of (λ kind. kind) result ≡ if_three form (operands_of text.now) }
{
    match parts_in(text) {
        Parts::Three(a, b, c) => with_three(form, a, b, c),
        Parts::Zero | Parts::One(..) | Parts::Two(..) | Parts::More => Err(Kind::Operands),
    }
}

fn ordered(form: Form, text: &[u8]) -> Read<'_>
    ensures { result_map_both order_of (λ kind. kind) result ≡ ordered form text.now }
{
    match form {
        Form::Bare(instr) => if_none(instr, text),
        Form::Unary(form) => if_one(form, text),
        Form::Binary(form) => if_two(form, text),
        Form::Ternary(form) => if_three(form, text),
        Form::Data(cell) => with_cells(cell, text),
    }
}

/// What a statement orders, or the kind of its first fault: 2 Mnemonic, 3 Operands, 4 Register, 5 Number or 6 Range,
/// whichever operand has it. Numbers of labels are not known yet, and not tried.
#[tactic(auto, unfolding(crate::specs::Orders::order_in))]
pub fn statement_in<'a>(raw: &RawStatement<'a>) -> Result<Statement<'a>, Kind>
    ensures { result_map_both order_of (λ kind. kind) result ≡ order_in (statement_words raw.now) }
{
    match form_in(raw.mnemonic) {
        Some(form) => ordered(form, raw.operands),
        None => Err(Kind::Mnemonic),
    }
}
