// The operands of a statement, and what one of them says.

ghost use Rattle.std.specs.Prelude.{◌≡◌, ◌<◌, ◌==◌, ◌∷◌, [], length, map, MatchOption, IfSome, IfOk};
ghost use Rattle.std.specs.Result.{result_map_both};
ghost use Rattle.std.specs.Option.{option_map};
ghost use Rattle.asm_lines.specs.Cuts.{has, front_to, behind};
ghost use Rattle.asm_lines.specs.Operands as spec;
ghost use Rattle.asm_lines.specs.Operands.{operand_parts, operands_of, AreParts, register_operand, number_operand, indexed_operand, label_operand, value_operand, said};

use crate::cuts::{begins_here, is_symbol, trimmed};
use crate::kinds::{Kind, both};
use crate::numbers::{register_of, spelled};
use text_readers::{cut_at, first_place};

/// The operands of a statement that has at most three, or the news that it has more.
#[derive(Clone, Copy, Debug)]
pub enum Parts<'a> {
    Zero,
    One(&'a [u8]),
    Two(&'a [u8], &'a [u8]),
    Three(&'a [u8], &'a [u8], &'a [u8]),
    More,
}

/// What a target or a word says.
#[derive(Clone, Copy, Debug)]
pub enum Value<'a> {
    Label(&'a [u8]),
    Number(i64),
}

/// The first operand of a text, and the text after its comma, if it has one.
pub fn next_part(text: &[u8]) -> (&[u8], Option<&[u8]>)
    ensures parts { MatchOption result.1
        (operand_parts text.now ≡ result.0.now ∷ [])
        (λ rest. operand_parts text.now ≡ result.0.now ∷ operand_parts rest.now) }
    ensures shorter { IfSome result.1 (λ rest. length rest.now < length text.now) }
{
    match cut_at(b',', text) {
        Some((operand, rest)) => (trimmed(operand), Some(rest)),
        None => (trimmed(text), None),
    }
}

/// The operands that a text has.
#[tactic(auto, using(crate::proofs::Splits::some_parts))]
pub fn parts_in(text: &[u8]) -> Parts<'_>
    ensures { AreParts result (operands_of text.now) }
{
    if text.is_empty() {
        return Parts::Zero;
    }
    let (a, rest) = next_part(text);
    let Some(text) = rest else {
        return Parts::One(a);
    };
    let (b, rest) = next_part(text);
    let Some(text) = rest else {
        return Parts::Two(a, b);
    };
    let (c, rest) = next_part(text);
    match rest {
        None => Parts::Three(a, b, c),
        Some(_) => Parts::More,
    }
}

// Where the parenthesis of an operand number(register) opens.
fn paren_in(operand: &[u8]) -> Option<usize>
    ensures kind { option_map (λ at. at) result ≡ spec.paren_of operand.now }
{
    if begins_here(operand) || operand.is_empty() || operand[operand.len() - 1] != b')' {
        return None;
    }
    first_place(b'(', operand)
}

/// The register that is wanted here.
#[tactic(auto, unfolding(crate::specs::Operands::register_operand))]
pub fn register_in(operand: &[u8]) -> Result<u32, Kind>
    ensures { result ≡ register_operand operand.now }
{
    if !begins_here(operand) {
        return Err(Kind::Operands);
    }
    register_of(operand).ok_or(Kind::Register)
}

/// The number that is wanted here.
#[tactic(auto, unfolding(crate::specs::Operands::number_operand))]
pub fn number_in(operand: &[u8]) -> Result<i64, Kind>
    ensures { result ≡ number_operand operand.now }
{
    if begins_here(operand) || paren_in(operand).is_some() {
        return Err(Kind::Operands);
    }
    spelled(operand).ok_or(Kind::Number)
}

/// The number and the register of an operand number(register), which is wanted here.
#[tactic(auto, unfolding(crate::specs::Operands::indexed_operand))]
pub fn indexed_in(operand: &[u8]) -> Result<(i64, u32), Kind>
    ensures { result ≡ indexed_operand operand.now }
{
    let Some(at) = paren_in(operand) else {
        return Err(Kind::Operands);
    };
    let number = spelled(&operand[..at]).ok_or(Kind::Number);
    let register = register_of(&operand[at + 1..operand.len() - 1]).ok_or(Kind::Register);
    both(number, register)
}

/// The label that is wanted here.
#[tactic(auto, unfolding(crate::specs::Operands::label_operand))]
pub fn label_in(operand: &[u8]) -> Result<&[u8], Kind>
    ensures { result_map_both (λ name. name.now) (λ kind. kind) result ≡ label_operand operand.now }
{
    if !is_symbol(operand) {
        return Err(Kind::Operands);
    }
    Ok(operand)
}

/// The label or the number that is wanted here.
#[tactic(auto, unfolding(crate::specs::Operands::value_operand))]
pub fn value_in(operand: &[u8]) -> Result<Value<'_>, Kind>
    ensures { result_map_both said (λ kind. kind) result ≡ value_operand operand.now }
{
    if is_symbol(operand) {
        return Ok(Value::Label(operand));
    }
    match number_in(operand) {
        Ok(number) => Ok(Value::Number(number)),
        Err(kind) => Err(kind),
    }
}
