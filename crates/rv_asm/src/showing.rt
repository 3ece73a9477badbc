// The listing's text of an instruction and of a word, made in place.

ghost use Rattle.std.specs.Prelude.{◌≡◌, ◌+◌, ◌++◌, ◌≤◌, [], ◌∷◌, length, codes, Some, IsSome, OnOk, OnErr};
ghost use Rattle.std.specs.Fmt.{signed_decimal};
ghost use Rattle.arrayvec.specs.ArrayVec.{array_vec_len};
ghost use Rattle.att_base.specs.Streams.{AppendsPiece};
ghost use Rattle.rv_decode.specs.declared.instruction.Instr.{Instr};
ghost use Rattle.rv_decode.specs.Words.{word_of};
ghost use Rattle.rv_asm.specs.Shown.{register_text, field_text, statement_text, indexed_text, word_text, text_of, shown_text};

use arrayvec::ArrayVec;
use att_base::{Failed, Sink, put_all};
use itoa::Buffer;
use rv_decode::{Instr, decode, encode};
use text_readers::word_digits;

/// A line that is made in place, of at most 96 bytes.
pub type Line = ArrayVec<u8, 96>;

/// Appends a piece for which the line has room.
pub fn put(line: &mut Line, piece: &[u8])
    requires { array_vec_len line.old + length piece.now ≤ 96 }
    ensures text { line.new.items ≡ line.old.items ++ piece.now }
    ensures len { array_vec_len line.new ≡ array_vec_len line.old + length piece.now }
{
    let Ok(()) = line.try_extend_from_slice(piece) else {
        unreachable!()
    };
}

fn put_register(line: &mut Line, register: u32)
    requires { array_vec_len line.old ≤ 80 }
    ensures text { line.new.items ≡ line.old.items ++ register_text register }
    ensures len { array_vec_len line.new ≤ array_vec_len line.old + 11 }
{
    let mut digits = Buffer::new();
    put(line, b"x");
    put(line, digits.format(register).as_bytes());
}

fn put_number(line: &mut Line, number: i64)
    requires { array_vec_len line.old ≤ 70 }
    ensures text { line.new.items ≡ line.old.items ++ signed_decimal number }
    ensures len { array_vec_len line.new ≤ array_vec_len line.old + 20 }
{
    let mut digits = Buffer::new();
    put(line, digits.format(number).as_bytes());
}

// `NAME rd, 0xFIELD`
#[tactic(auto, using(crate::proofs::Pieces::two_joined))]
fn put_upper(line: &mut Line, name: &[u8], rd: u32, imm: u32)
    requires room { array_vec_len line.old ≤ 30 }
    requires name { length name.now ≤ 6 }
    ensures text { line.new.items ≡ line.old.items ++ statement_text name.now (register_text rd ∷ field_text imm ∷ []) }
    ensures len { array_vec_len line.new ≤ array_vec_len line.old + 60 }
{
    let digits = word_digits(imm);
    put(line, name);
    put(line, b" ");
    put_register(line, rd);
    put(line, b", ");
    put(line, b"0x");
    put(line, &digits[3..]);
}

// `NAME rd, NUMBER`
#[tactic(auto, using(crate::proofs::Pieces::two_joined))]
fn put_offset(line: &mut Line, name: &[u8], rd: u32, number: i64)
    requires room { array_vec_len line.old ≤ 30 }
    requires name { length name.now ≤ 6 }
    ensures text { line.new.items ≡ line.old.items ++ statement_text name.now (register_text rd ∷ signed_decimal number ∷ []) }
    ensures len { array_vec_len line.new ≤ array_vec_len line.old + 60 }
{
    put(line, name);
    put(line, b" ");
    put_register(line, rd);
    put(line, b", ");
    put_number(line, number);
}

// `NAME r, NUMBER(base)`
#[tactic(auto, using(crate::proofs::Pieces::two_joined))]
fn put_indexed(line: &mut Line, name: &[u8], register: u32, number: i64, base: u32)
    requires room { array_vec_len line.old ≤ 30 }
    requires name { length name.now ≤ 6 }
    ensures text { line.new.items ≡ line.old.items ++ statement_text name.now (register_text register ∷ indexed_text number base ∷ []) }
    ensures len { array_vec_len line.new ≤ array_vec_len line.old + 60 }
{
    put(line, name);
    put(line, b" ");
    put_register(line, register);
    put(line, b", ");
    put_reference(line, number, base);
}

// `NUMBER(base)`
fn put_reference(line: &mut Line, number: i64, base: u32)
    requires { array_vec_len line.old ≤ 55 }
    ensures text { line.new.items ≡ line.old.items ++ indexed_text number base }
    ensures len { array_vec_len line.new ≤ array_vec_len line.old + 33 }
{
    put_number(line, number);
    put(line, b"(");
    put_register(line, base);
    put(line, b")");
}

// `NAME a, b, `
fn put_two(line: &mut Line, name: &[u8], a: u32, b: u32)
    requires room { array_vec_len line.old ≤ 30 }
    requires name { length name.now ≤ 6 }
    ensures text { line.new.items ≡ line.old.items ++ (name.now ++ (codes " " ++ (register_text a ++ (codes ", " ++ (register_text b ++ codes ", "))))) }
    ensures len { array_vec_len line.new ≤ array_vec_len line.old + 33 }
{
    put(line, name);
    put(line, b" ");
    put_register(line, a);
    put(line, b", ");
    put_register(line, b);
    put(line, b", ");
}

// `NAME a, b, NUMBER`
#[tactic(auto, using(crate::proofs::Pieces::three_joined))]
fn put_immediate(line: &mut Line, name: &[u8], a: u32, b: u32, number: i64)
    requires room { array_vec_len line.old ≤ 30 }
    requires name { length name.now ≤ 6 }
    ensures text { line.new.items ≡ line.old.items ++ statement_text name.now (register_text a ∷ register_text b ∷ signed_decimal number ∷ []) }
    ensures len { array_vec_len line.new ≤ array_vec_len line.old + 60 }
{
    put_two(line, name, a, b);
    put_number(line, number);
}

// `NAME a, b, c`
#[tactic(auto, using(crate::proofs::Pieces::three_joined))]
fn put_three(line: &mut Line, name: &[u8], a: u32, b: u32, c: u32)
    requires room { array_vec_len line.old ≤ 30 }
    requires name { length name.now ≤ 6 }
    ensures text { line.new.items ≡ line.old.items ++ statement_text name.now (register_text a ∷ register_text b ∷ register_text c ∷ []) }
    ensures len { array_vec_len line.new ≤ array_vec_len line.old + 60 }
{
    put_two(line, name, a, b);
    put_register(line, c);
}

fn put_word(line: &mut Line, word: u32)
    requires { array_vec_len line.old ≤ 30 }
    ensures text { line.new.items ≡ line.old.items ++ word_text (Some word) }
    ensures len { array_vec_len line.new ≤ array_vec_len line.old + 60 }
{
    let digits = word_digits(word);
    put(line, b".word 0x");
    put(line, &digits);
}

// The full fence has a name, another is its word.
fn put_fence(line: &mut Line, rd: u32, rs1: u32, imm: u32)
    requires room { array_vec_len line.old ≤ 30 }
    requires word { IsSome (word_of (Instr.Fence rd rs1 imm)) }
    ensures text { line.new.items ≡ line.old.items ++ text_of (Instr.Fence rd rs1 imm) }
    ensures len { array_vec_len line.new ≤ array_vec_len line.old + 60 }
{
    if rd == 0 && rs1 == 0 && imm == 0x0ff {
        put(line, b"fence");
        return;
    }
    let Some(word) = encode(&Instr::Fence { rd, rs1, imm }) else {
        unreachable!()
    };
    put_word(line, word);
}

#[tactic(auto, using(crate::proofs::Pieces::branch_short, crate::proofs::Pieces::load_short, crate::proofs::Pieces::store_short, crate::proofs::Pieces::imm_short, crate::proofs::Pieces::shift_short, crate::proofs::Pieces::reg_short, crate::proofs::Pieces::mul_short))]
fn put_instr(line: &mut Line, instr: &Instr)
    requires room { array_vec_len line.old ≤ 30 }
    requires word { IsSome (word_of instr.now) }
    ensures text { line.new.items ≡ line.old.items ++ text_of instr.now }
    ensures len { array_vec_len line.new ≤ array_vec_len line.old + 60 }
{
    match *instr {
        Instr::Lui { rd, imm } => put_upper(line, b"lui", rd, imm),
        Instr::Auipc { rd, imm } => put_upper(line, b"auipc", rd, imm),
        Instr::Jal { rd, imm } => put_offset(line, b"jal", rd, i64::from(imm)),
        Instr::Jalr { rd, rs1, imm } => put_indexed(line, b"jalr", rd, i64::from(imm), rs1),
        Instr::Branch { op, rs1, rs2, imm } => {
            put_immediate(line, op.name(), rs1, rs2, i64::from(imm))
        }
        Instr::Load { op, rd, rs1, imm } => put_indexed(line, op.name(), rd, i64::from(imm), rs1),
        Instr::Store { op, rs1, rs2, imm } => {
            put_indexed(line, op.name(), rs2, i64::from(imm), rs1)
        }
        Instr::Imm { op, rd, rs1, imm } => put_immediate(line, op.name(), rd, rs1, i64::from(imm)),
        Instr::Shift { op, rd, rs1, shamt } => {
            put_immediate(line, op.name(), rd, rs1, i64::from(shamt))
        }
        Instr::Reg { op, rd, rs1, rs2 } => put_three(line, op.name(), rd, rs1, rs2),
        Instr::Mul { op, rd, rs1, rs2 } => put_three(line, op.name(), rd, rs1, rs2),
        Instr::Fence { rd, rs1, imm } => put_fence(line, rd, rs1, imm),
        Instr::Ecall => put(line, b"ecall"),
        Instr::Ebreak => put(line, b"ebreak"),
    }
}

/// Appends the listing's text of a word: that of its instruction, or `.word 0x` and eight digits where it has none.
pub fn put_text(line: &mut Line, word: u32)
    requires { array_vec_len line.old ≤ 30 }
    ensures text { line.new.items ≡ line.old.items ++ shown_text word }
    ensures len { array_vec_len line.new ≤ array_vec_len line.old + 60 }
{
    match decode(word) {
        Some(instr) => put_instr(line, &instr),
        None => put_word(line, word),
    }
}

/// Appends the listing's text of an instruction: its name, and behind a space its operands with `, ` between them,
/// registers as `xN`, numbers in decimal, and the field of `lui` and `auipc` as `0x` and five digits. A fence other than
/// 0ff0000f is `.word 0x` and its eight digits. After `Failed` a front of the text was appended.
pub fn show<K: Sink>(instr: &Instr, sink: &mut K) -> Result<(), Failed>
    requires { IsSome (word_of instr.now) }
    ensures puts { AppendsPiece result (text_of instr.now) (K.held sink.old) (K.held sink.new) (K.faults sink.old) (K.faults sink.new) }
{
    let mut line = Line::new();
    put_instr(&mut line, instr);
    put_all(sink, line.as_slice())
}
