// The first words of statements.

ghost use Rattle.std.specs.Prelude.{◌≡◌};
ghost use Rattle.asm_statements.specs.Forms.{branch_named, zero_branch_named, load_named, store_named, imm_named, shift_named, reg_named, mul_named, bare_named, unary_named, binary_named, cell_named, ternary_of, binary_of, statement_form};

use rv_decode::{BranchOp, ImmOp, Instr, LoadOp, MulOp, RegOp, ShiftOp, StoreOp};

/// What `.word` and `.byte` put one after the other.
#[derive(Clone, Copy, Debug, PartialEq, Eq)]
pub enum Cell {
    /// Four bytes, the low one first.
    Word,
    /// One byte.
    Byte,
}

/// The statements of one operand.
#[derive(Clone, Copy, Debug)]
pub enum Unary {
    J,
    Jr,
    Segment,
    Entry,
    Space,
}

/// The statements of two operands.
#[derive(Clone, Copy, Debug)]
pub enum Binary {
    Lui,
    Auipc,
    Jal,
    Jalr,
    Load(LoadOp),
    Store(StoreOp),
    Mv,
    Li,
    La,
    /// A branch on one register and zero.
    BranchZero(BranchOp),
}

/// The statements of three operands.
#[derive(Clone, Copy, Debug)]
pub enum Ternary {
    Branch(BranchOp),
    Imm(ImmOp),
    Shift(ShiftOp),
    Reg(RegOp),
    Mul(MulOp),
}

/// The statements, by the number of their operands.
#[derive(Clone, Copy, Debug)]
pub enum Form {
    /// No operands: the instruction is known.
    Bare(Instr),
    Unary(Unary),
    Binary(Binary),
    Ternary(Ternary),
    /// One operand or more.
    Data(Cell),
}

#[tactic(auto, unfolding(crate::specs::Forms::branch_named))]
fn branch_named(word: &[u8]) -> Option<BranchOp>
    ensures { result ≡ branch_named word.now }
{
    if word == b"beq".as_slice() {
        return Some(BranchOp::Beq);
    }
    if word == b"bne".as_slice() {
        return Some(BranchOp::Bne);
    }
    if word == b"blt".as_slice() {
        return Some(BranchOp::Blt);
    }
    if word == b"bge".as_slice() {
        return Some(BranchOp::Bge);
    }
    if word == b"bltu".as_slice() {
        return Some(BranchOp::Bltu);
    }
    if word == b"bgeu".as_slice() {
        return Some(BranchOp::Bgeu);
    }
    None
}

#[tactic(auto, unfolding(crate::specs::Forms::zero_branch_named))]
fn zero_branch_named(word: &[u8]) -> Option<BranchOp>
    ensures { result ≡ zero_branch_named word.now }
{
    if word == b"beqz".as_slice() {
        return Some(BranchOp::Beq);
    }
    if word == b"bnez".as_slice() {
        return Some(BranchOp::Bne);
    }
    None
}

#[tactic(auto, unfolding(crate::specs::Forms::load_named))]
fn load_named(word: &[u8]) -> Option<LoadOp>
    ensures { result ≡ load_named word.now }
{
    if word == b"lb".as_slice() {
        return Some(LoadOp::Lb);
    }
    if word == b"lh".as_slice() {
        return Some(LoadOp::Lh);
    }
    if word == b"lw".as_slice() {
        return Some(LoadOp::Lw);
    }
    if word == b"lbu".as_slice() {
        return Some(LoadOp::Lbu);
    }
    if word == b"lhu".as_slice() {
        return Some(LoadOp::Lhu);
    }
    None
}

#[tactic(auto, unfolding(crate::specs::Forms::store_named))]
fn store_named(word: &[u8]) -> Option<StoreOp>
    ensures { result ≡ store_named word.now }
{
    if word == b"sb".as_slice() {
        return Some(StoreOp::Sb);
    }
    if word == b"sh".as_slice() {
        return Some(StoreOp::Sh);
    }
    if word == b"sw".as_slice() {
        return Some(StoreOp::Sw);
    }
    None
}

#[tactic(auto, unfolding(crate::specs::Forms::imm_named))]
fn imm_named(word: &[u8]) -> Option<ImmOp>
    ensures { result ≡ imm_named word.now }
{
    if word == b"addi".as_slice() {
        return Some(ImmOp::Addi);
    }
    if word == b"slti".as_slice() {
        return Some(ImmOp::Slti);
    }
    if word == b"sltiu".as_slice() {
        return Some(ImmOp::Sltiu);
    }
    if word == b"xori".as_slice() {
        return Some(ImmOp::Xori);
    }
    if word == b"ori".as_slice() {
        return Some(ImmOp::Ori);
    }
    if word == b"andi".as_slice() {
        return Some(ImmOp::Andi);
    }
    None
}

#[tactic(auto, unfolding(crate::specs::Forms::shift_named))]
fn shift_named(word: &[u8]) -> Option<ShiftOp>
    ensures { result ≡ shift_named word.now }
{
    if word == b"slli".as_slice() {
        return Some(ShiftOp::Slli);
    }
    if word == b"srli".as_slice() {
        return Some(ShiftOp::Srli);
    }
    if word == b"srai".as_slice() {
        return Some(ShiftOp::Srai);
    }
    None
}

#[tactic(auto, unfolding(crate::specs::Forms::reg_named))]
fn reg_named(word: &[u8]) -> Option<RegOp>
    ensures { result ≡ reg_named word.now }
{
    if word == b"add".as_slice() {
        return Some(RegOp::Add);
    }
    if word == b"sub".as_slice() {
        return Some(RegOp::Sub);
    }
    if word == b"sll".as_slice() {
        return Some(RegOp::Sll);
    }
    if word == b"slt".as_slice() {
        return Some(RegOp::Slt);
    }
    if word == b"sltu".as_slice() {
        return Some(RegOp::Sltu);
    }
    if word == b"xor".as_slice() {
        return Some(RegOp::Xor);
    }
    if word == b"srl".as_slice() {
        return Some(RegOp::Srl);
    }
    if word == b"sra".as_slice() {
        return Some(RegOp::Sra);
    }
    if word == b"or".as_slice() {
        return Some(RegOp::Or);
    }
    if word == b"and".as_slice() {
        return Some(RegOp::And);
    }
    None
}

#[tactic(auto, unfolding(crate::specs::Forms::mul_named))]
fn mul_named(word: &[u8]) -> Option<MulOp>
    ensures { result ≡ mul_named word.now }
{
    if word == b"mul".as_slice() {
        return Some(MulOp::Mul);
    }
    if word == b"mulh".as_slice() {
        return Some(MulOp::Mulh);
    }
    if word == b"mulhsu".as_slice() {
        return Some(MulOp::Mulhsu);
    }
    if word == b"mulhu".as_slice() {
        return Some(MulOp::Mulhu);
    }
    if word == b"div".as_slice() {
        return Some(MulOp::Div);
    }
    if word == b"divu".as_slice() {
        return Some(MulOp::Divu);
    }
    if word == b"rem".as_slice() {
        return Some(MulOp::Rem);
    }
    if word == b"remu".as_slice() {
        return Some(MulOp::Remu);
    }
    None
}

#[tactic(auto, unfolding(crate::specs::Forms::bare_named))]
fn bare_named(word: &[u8]) -> Option<Instr>
    ensures { result ≡ bare_named word.now }
{
    if word == b"nop".as_slice() {
        return Some(Instr::Imm {
            op: ImmOp::Addi,
            rd: 0,
            rs1: 0,
            imm: 0,
        });
    }
    if word == b"ret".as_slice() {
        return Some(Instr::Jalr {
            rd: 0,
            rs1: 1,
            imm: 0,
        });
    }
    if word == b"ecall".as_slice() {
        return Some(Instr::Ecall);
    }
    if word == b"ebreak".as_slice() {
        return Some(Instr::Ebreak);
    }
    if word == b"fence".as_slice() {
        return Some(Instr::Fence {
            rd: 0,
            rs1: 0,
            imm: 0x0ff,
        });
    }
    None
}

#[tactic(auto, unfolding(crate::specs::Forms::unary_named))]
fn unary_named(word: &[u8]) -> Option<Unary>
    ensures { result ≡ unary_named word.now }
{
    if word == b"j".as_slice() {
        return Some(Unary::J);
    }
    if word == b"jr".as_slice() {
        return Some(Unary::Jr);
    }
    if word == b".segment".as_slice() {
        return Some(Unary::Segment);
    }
    if word == b".entry".as_slice() {
        return Some(Unary::Entry);
    }
    if word == b".space".as_slice() {
        return Some(Unary::Space);
    }
    None
}

#[tactic(auto, unfolding(crate::specs::Forms::binary_named))]
fn binary_named(word: &[u8]) -> Option<Binary>
    ensures { result ≡ binary_named word.now }
{
    if word == b"lui".as_slice() {
        return Some(Binary::Lui);
    }
    if word == b"auipc".as_slice() {
        return Some(Binary::Auipc);
    }
    if word == b"jal".as_slice() {
        return Some(Binary::Jal);
    }
    if word == b"jalr".as_slice() {
        return Some(Binary::Jalr);
    }
    if word == b"mv".as_slice() {
        return Some(Binary::Mv);
    }
    if word == b"li".as_slice() {
        return Some(Binary::Li);
    }
    if word == b"la".as_slice() {
        return Some(Binary::La);
    }
    None
}

#[tactic(auto, unfolding(crate::specs::Forms::cell_named))]
fn cell_named(word: &[u8]) -> Option<Cell>
    ensures { result ≡ cell_named word.now }
{
    if word == b".word".as_slice() {
        return Some(Cell::Word);
    }
    if word == b".byte".as_slice() {
        return Some(Cell::Byte);
    }
    None
}

#[tactic(auto, unfolding(crate::specs::Forms::ternary_of))]
fn ternary_of(word: &[u8]) -> Option<Ternary>
    ensures { result ≡ ternary_of word.now }
{
    if let Some(op) = imm_named(word) {
        return Some(Ternary::Imm(op));
    }
    if let Some(op) = branch_named(word) {
        return Some(Ternary::Branch(op));
    }
    if let Some(op) = reg_named(word) {
        return Some(Ternary::Reg(op));
    }
    if let Some(op) = shift_named(word) {
        return Some(Ternary::Shift(op));
    }
    match mul_named(word) {
        Some(op) => Some(Ternary::Mul(op)),
        None => None,
    }
}

#[tactic(auto, unfolding(crate::specs::Forms::binary_of))]
fn binary_of(word: &[u8]) -> Option<Binary>
    ensures { result ≡ binary_of word.now }
{
    if let Some(op) = load_named(word) {
        return Some(Binary::Load(op));
    }
    if let Some(op) = store_named(word) {
        return Some(Binary::Store(op));
    }
    if let Some(op) = zero_branch_named(word) {
        return Some(Binary::BranchZero(op));
    }
    binary_named(word)
}

/// The form of the statement that has this first word; `None` where there is none.
#[tactic(auto, unfolding(crate::specs::Forms::statement_form))]
pub fn form_in(word: &[u8]) -> Option<Form>
    ensures { result ≡ statement_form word.now }
{
    if let Some(form) = ternary_of(word) {
        return Some(Form::Ternary(form));
    }
    if let Some(form) = binary_of(word) {
        return Some(Form::Binary(form));
    }
    if let Some(form) = unary_named(word) {
        return Some(Form::Unary(form));
    }
    if let Some(instr) = bare_named(word) {
        return Some(Form::Bare(instr));
    }
    match cell_named(word) {
        Some(cell) => Some(Form::Data(cell)),
        None => None,
    }
}
