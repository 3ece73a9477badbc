// The instructions of RV32IM, one variant for each shape of operands.

/// The conditional branches (RV32I, "Conditional Branches").
#[derive(Clone, Copy, Debug, PartialEq, Eq)]
pub enum BranchOp {
    Beq,
    Bne,
    Blt,
    Bge,
    Bltu,
    Bgeu,
}

/// The loads (RV32I, "Load and Store Instructions").
#[derive(Clone, Copy, Debug, PartialEq, Eq)]
pub enum LoadOp {
    Lb,
    Lh,
    Lw,
    Lbu,
    Lhu,
}

/// The stores (RV32I, "Load and Store Instructions").
#[derive(Clone, Copy, Debug, PartialEq, Eq)]
pub enum StoreOp {
    Sb,
    Sh,
    Sw,
}

/// The operations on a register and a signed immediate of 12 bits (RV32I, "Integer Register-Immediate
/// Instructions").
#[derive(Clone, Copy, Debug, PartialEq, Eq)]
pub enum ImmOp {
    Addi,
    Slti,
    Sltiu,
    Xori,
    Ori,
    Andi,
}

/// The shifts by a constant (RV32I, "Integer Register-Immediate Instructions").
#[derive(Clone, Copy, Debug, PartialEq, Eq)]
pub enum ShiftOp {
    Slli,
    Srli,
    Srai,
}

/// The operations on two registers (RV32I, "Integer Register-Register Operations").
#[derive(Clone, Copy, Debug, PartialEq, Eq)]
pub enum RegOp {
    Add,
    Sub,
    Sll,
    Slt,
    Sltu,
    Xor,
    Srl,
    Sra,
    Or,
    And,
}

/// The multiplications, quotients and remainders of two registers ("M" Standard Extension for Integer
/// Multiplication and Division).
#[derive(Clone, Copy, Debug, PartialEq, Eq)]
pub enum MulOp {
    Mul,
    Mulh,
    Mulhsu,
    Mulhu,
    Div,
    Divu,
    Rem,
    Remu,
}

/// An instruction of RV32IM.
///
/// It has a word exactly where each field is in its range: a register `rd`, `rs1`, `rs2` and a `shamt` is below
/// 32; the `imm` of `Lui` and `Auipc` is the field of 20 bits, below 2^20; that of `Jalr`, `Load`, `Store` and
/// `Imm` is from -2048 to 2047; a branch's offset is even, from -4096 to 4094; that of `Jal` is even, from
/// -1048576 to 1048574; the `imm` of `Fence` is its upper 12 bits, below 4096.
#[derive(Clone, Copy, Debug, PartialEq, Eq)]
pub enum Instr {
    Lui {
        rd: u32,
        imm: u32,
    },
    Auipc {
        rd: u32,
        imm: u32,
    },
    Jal {
        rd: u32,
        imm: i32,
    },
    Jalr {
        rd: u32,
        rs1: u32,
        imm: i32,
    },
    Branch {
        op: BranchOp,
        rs1: u32,
        rs2: u32,
        imm: i32,
    },
    Load {
        op: LoadOp,
        rd: u32,
        rs1: u32,
        imm: i32,
    },
    Store {
        op: StoreOp,
        rs1: u32,
        rs2: u32,
        imm: i32,
    },
    Imm {
        op: ImmOp,
        rd: u32,
        rs1: u32,
        imm: i32,
    },
    Shift {
        op: ShiftOp,
        rd: u32,
        rs1: u32,
        shamt: u32,
    },
    Reg {
        op: RegOp,
        rd: u32,
        rs1: u32,
        rs2: u32,
    },
    Mul {
        op: MulOp,
        rd: u32,
        rs1: u32,
        rs2: u32,
    },
    Fence {
        rd: u32,
        rs1: u32,
        imm: u32,
    },
    Ecall,
    Ebreak,
}
