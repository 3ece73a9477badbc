// The fields of an instruction word, and its immediates (RV32I, "Immediate Encoding Variants").

ghost use Rattle.std.specs.Prelude.{◌≡◌, ℕ, ◌<◌, ◌^◌};
ghost use Rattle.rv_decode.specs.Fields as f;

pub fn opcode(word: u32) -> u32
    ensures { result ≡ f.opcode word }
{
    word & 0x7f
}

pub fn rd(word: u32) -> u32
    ensures { result ≡ f.rd word }
{
    (word >> 7) & 0x1f
}

pub fn funct3(word: u32) -> u32
    ensures { result ≡ f.funct3 word }
{
    (word >> 12) & 0x7
}

pub fn rs1(word: u32) -> u32
    ensures { result ≡ f.rs1 word }
{
    (word >> 15) & 0x1f
}

pub fn rs2(word: u32) -> u32
    ensures { result ≡ f.rs2 word }
{
    (word >> 20) & 0x1f
}

pub fn funct7(word: u32) -> u32
    ensures { result ≡ f.funct7 word }
{
    (word >> 25) & 0x7f
}

pub fn rest(word: u32) -> u32
    ensures { result ≡ f.rest word }
{
    word >> 7
}

pub fn upper12(word: u32) -> u32
    ensures { result ≡ f.upper12 word }
{
    (word >> 20) & 0xfff
}

pub fn imm_u(word: u32) -> u32
    ensures { result ≡ f.imm_u word }
{
    (word >> 12) & 0xf_ffff
}

// An immediate of 12 bits, sign-extended.
fn signed12(bits: u32) -> i32
    requires { bits < 2 ^ 12 }
    ensures { result ≡ f.signed 12 bits }
{
    if bits < 0x800 {
        bits as i32
    } else {
        bits as i32 - 0x1000
    }
}

pub fn imm_i(word: u32) -> i32
    ensures { result ≡ f.imm_i word }
{
    signed12((word >> 20) & 0xfff)
}

pub fn imm_s(word: u32) -> i32
    ensures { result ≡ f.imm_s word }
{
    signed12(((word >> 7) & 0x1f) + ((word >> 25) & 0x7f) * 0x20)
}

pub fn imm_b(word: u32) -> i32
    ensures { result ≡ f.imm_b word }
{
    let bits = ((word >> 8) & 0xf) * 2
        + ((word >> 25) & 0x3f) * 0x20
        + ((word >> 7) & 1) * 0x800
        + ((word >> 31) & 1) * 0x1000;
    if bits < 0x1000 {
        bits as i32
    } else {
        bits as i32 - 0x2000
    }
}

pub fn imm_j(word: u32) -> i32
    ensures { result ≡ f.imm_j word }
{
    let bits = ((word >> 21) & 0x3ff) * 2
        + ((word >> 20) & 1) * 0x800
        + ((word >> 12) & 0xff) * 0x1000
        + ((word >> 31) & 1) * 0x10_0000;
    if bits < 0x10_0000 {
        bits as i32
    } else {
        bits as i32 - 0x20_0000
    }
}
