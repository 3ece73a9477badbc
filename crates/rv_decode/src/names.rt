// The mnemonics of the operations, in lowercase.

ghost use Rattle.std.specs.Prelude.{◌≡◌};
ghost use Rattle.rv_decode.specs.Names.{branch_name, load_name, store_name, imm_name, shift_name, reg_name, mul_name};

use crate::instruction::{BranchOp, ImmOp, LoadOp, MulOp, RegOp, ShiftOp, StoreOp};

impl BranchOp {
    /// The operation's mnemonic, as in `beq`.
    pub fn name<'a>(self) -> &'a [u8]
        ensures { result.now ≡ branch_name self }
    {
        match self {
            BranchOp::Beq => b"beq",
            BranchOp::Bne => b"bne",
            BranchOp::Blt => b"blt",
            BranchOp::Bge => b"bge",
            BranchOp::Bltu => b"bltu",
            BranchOp::Bgeu => b"bgeu",
        }
    }
}

impl LoadOp {
    /// The operation's mnemonic, as in `lb`.
    pub fn name<'a>(self) -> &'a [u8]
        ensures { result.now ≡ load_name self }
    {
        match self {
            LoadOp::Lb => b"lb",
            LoadOp::Lh => b"lh",
            LoadOp::Lw => b"lw",
            LoadOp::Lbu => b"lbu",
            LoadOp::Lhu => b"lhu",
        }
    }
}

impl StoreOp {
    /// The operation's mnemonic, as in `sb`.
    pub fn name<'a>(self) -> &'a [u8]
        ensures { result.now ≡ store_name self }
    {
        match self {
            StoreOp::Sb => b"sb",
            StoreOp::Sh => b"sh",
            StoreOp::Sw => b"sw",
        }
    }
}

impl ImmOp {
    /// The operation's mnemonic, as in `addi`.
    pub fn name<'a>(self) -> &'a [u8]
        ensures { result.now ≡ imm_name self }
    {
        match self {
            ImmOp::Addi => b"addi",
            ImmOp::Slti => b"slti",
            ImmOp::Sltiu => b"sltiu",
            ImmOp::Xori => b"xori",
            ImmOp::Ori => b"ori",
            ImmOp::Andi => b"andi",
        }
    }
}

impl ShiftOp {
    /// The operation's mnemonic, as in `slli`.
    pub fn name<'a>(self) -> &'a [u8]
        ensures { result.now ≡ shift_name self }
    {
        match self {
            ShiftOp::Slli => b"slli",
            ShiftOp::Srli => b"srli",
            ShiftOp::Srai => b"srai",
        }
    }
}

impl RegOp {
    /// The operation's mnemonic, as in `add`.
    pub fn name<'a>(self) -> &'a [u8]
        ensures { result.now ≡ reg_name self }
    {
        match self {
            RegOp::Add => b"add",
            RegOp::Sub => b"sub",
            RegOp::Sll => b"sll",
            RegOp::Slt => b"slt",
            RegOp::Sltu => b"sltu",
            RegOp::Xor => b"xor",
            RegOp::Srl => b"srl",
            RegOp::Sra => b"sra",
            RegOp::Or => b"or",
            RegOp::And => b"and",
        }
    }
}

impl MulOp {
    /// The operation's mnemonic, as in `mul`.
    pub fn name<'a>(self) -> &'a [u8]
        ensures { result.now ≡ mul_name self }
    {
        match self {
            MulOp::Mul => b"mul",
            MulOp::Mulh => b"mulh",
            MulOp::Mulhsu => b"mulhsu",
            MulOp::Mulhu => b"mulhu",
            MulOp::Div => b"div",
            MulOp::Divu => b"divu",
            MulOp::Rem => b"rem",
            MulOp::Remu => b"remu",
        }
    }
}
