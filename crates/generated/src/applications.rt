//! What a generated application runs.

ghost use Rattle.std.specs.Prelude.{◌≡◌, ◌<◌, ◌≤◌, ◌++◌, ◌+◌, ◌*◌, length, IfOk, OnOk};
ghost use Rattle.rv_decode.specs.declared.instruction.Instr.TheVariants.{Imm};
ghost use Rattle.rv_decode.specs.declared.instruction.ImmOp.TheVariants.{Addi};
ghost use Rattle.generated.specs.Applications.{code, little_endian, zero_padded, program, addi_rest, lui_field};

use rv_decode::{BranchOp, ImmOp, Instr, LoadOp, StoreOp, encode};
use std::alloc::{AllocError, Global};

// The registers that it takes.
const REG_T0: u32 = 5;

const REG_T1: u32 = 6;

const REG_T2: u32 = 7;

const REG_A0: u32 = 10;

const REG_A7: u32 = 17;

/// How many bytes a block has.
const BLOCK: usize = 256;

// `addi`.
fn addi(rd: u32, rs1: u32, imm: i32) -> Instr
    ensures { result ≡ Imm Addi rd rs1 imm }
{
    Instr::Imm {
        op: ImmOp::Addi,
        rd,
        rs1,
        imm,
    }
}

// The field of `lui` nearest to a number.
fn lui_field(number: u32) -> u32
    ensures { result ≡ lui_field number }
{
    let high = (u64::from(number) + 0x800) / 4096;
    (high % 0x10_0000) as u32
}

// What `addi` adds to it.
fn addi_rest(number: u32) -> i32
    ensures { result ≡ addi_rest number }
{
    let high = (u64::from(number) + 0x800) / 4096;
    (i64::from(number) - (high * 4096) as i64) as i32
}

// It adds 1 to the word at this address, so many times, and exits with 0.
#[tactic(auto, unfolding(crate::specs::Applications::program))]
fn program(address: u32, count: u32) -> [Instr; 11]
    requires { count ≤ 2047 }
    ensures { result ≡ program address count }
{
    [
        Instr::Lui {
            rd: REG_T0,
            imm: lui_field(address),
        },
        addi(REG_T0, REG_T0, addi_rest(address)),
        addi(REG_T1, 0, count as i32),
        Instr::Load {
            op: LoadOp::Lw,
            rd: REG_T2,
            rs1: REG_T0,
            imm: 0,
        },
        addi(REG_T2, REG_T2, 1),
        Instr::Store {
            op: StoreOp::Sw,
            rs1: REG_T0,
            rs2: REG_T2,
            imm: 0,
        },
        addi(REG_T1, REG_T1, -1),
        Instr::Branch {
            op: BranchOp::Bne,
            rs1: REG_T1,
            rs2: 0,
            imm: -16,
        },
        addi(REG_A7, 0, 93),
        addi(REG_A0, REG_T1, 0),
        Instr::Ecall,
    ]
}

// The bytes of an instruction.
fn little_endian(instr: &Instr) -> [u8; 4]
    ensures { result ≡ little_endian instr.now }
{
    encode(instr).unwrap_or(0).to_le_bytes()
}

// Appends instructions.
fn append_code(image: &mut Vec<u8>, instrs: &[Instr]) -> Result<(), AllocError>
    ensures items { OnOk result (image.new.items ≡ image.old.items ++ code instrs.now) }
    ensures length { OnOk result (length image.new.items ≡ length image.old.items + 4 * length instrs.now) }
{
    for instr in instrs {
        image.extend_from_slice(&little_endian(instr))?;
    }
    Ok(())
}

/// Puts zeros behind bytes, so that there are so many in all.
#[tactic(auto, unfolding(crate::specs::Applications::zero_padded))]
pub fn pad(bytes: &mut Vec<u8>, size: usize) -> Result<(), AllocError>
    requires { length bytes.old.items ≤ size }
    ensures items { OnOk result (bytes.new.items ≡ zero_padded size bytes.old.items) }
    ensures length { OnOk result (length bytes.new.items ≡ size) }
{
    bytes.resize(size, 0)
}

/// The block with the application that adds 1 to the word at this address so many times.
fn application_block(alloc: Global, address: u32, count: u32) -> Result<Vec<u8>, AllocError>
    requires { count ≤ 2047 }
    ensures items { IfOk result (λ block. block.items ≡ zero_padded 256 (code (program address count))) }
    ensures length { IfOk result (λ block. length block.items ≡ 256) }
{
    let mut block = Vec::with_capacity(alloc, BLOCK)?;
    append_code(&mut block, &program(address, count))?;
    pad(&mut block, BLOCK)?;
    Ok(block)
}

/// Appends a block with the application that adds 1 to the word at this address so many times.
pub fn append_application(
    alloc: Global,
    image: &mut Vec<u8>,
    address: u32,
    count: u32,
) -> Result<(), AllocError>
    requires { count ≤ 2047 }
    ensures items { OnOk result (image.new.items ≡ image.old.items ++ zero_padded 256 (code (program address count))) }
    ensures length { OnOk result (length image.new.items ≡ length image.old.items + 256) }
{
    let block = application_block(alloc, address, count)?;
    image.extend_from_slice(&block)
}
