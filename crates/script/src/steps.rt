//! The steps of a script, and the lines that say them.

ghost use Rattle.std.specs.Prelude.{◌≡◌, ℕ, List, [], ◌∷◌, IfSome};
ghost use Rattle.script.specs.Attested.{FitsWidth};
ghost use Rattle.text_readers.specs.Lines.{AreWords};
ghost use Rattle.script.specs.Grammar.{width_of, short_step, store_step, start_step, step_of};

use hex::FromHex;
use history::{Discipline, Width};
use text_readers::{Words, decimal, hex_number};

/// One step: an access of application 1, or a step of the measurer.
#[derive(Clone, Copy, Debug)]
pub enum Step {
    /// Application 1 loads `width` bytes at the address.
    Load {
        width: Width,
        addr: u32,
    },
    /// Application 1 stores the lowest `width` bytes of the value.
    Store {
        width: Width,
        addr: u32,
        value: u32,
    },
    /// The measurer begins a pass; the nonce is the verifier's.
    Start {
        discipline: Discipline,
        counter: u64,
        nonce: [u8; 16],
    },
    /// The measurer copies the next attested block.
    Copy,
    /// The measurer ends the pass.
    End,
    /// The measurer lets time go by.
    Tick,
    /// The measurer gives up what an extended discipline still locks.
    Release,
}

fn width_in(word: &[u8]) -> Option<Width>
    ensures { result ≡ width_of word.now }
{
    if word == b"1".as_slice() {
        return Some(Width::Byte);
    }
    if word == b"2".as_slice() {
        return Some(Width::Half);
    }
    if word == b"4".as_slice() {
        return Some(Width::Word);
    }
    None
}

fn short_step(verb: &[u8]) -> Option<Step>
    ensures value { result ≡ short_step verb.now }
    ensures within { IfSome result FitsWidth }
{
    if verb == b"copy".as_slice() {
        return Some(Step::Copy);
    }
    if verb == b"end".as_slice() {
        return Some(Step::End);
    }
    if verb == b"tick".as_slice() {
        return Some(Step::Tick);
    }
    if verb == b"release".as_slice() {
        return Some(Step::Release);
    }
    None
}

#[tactic(auto, unfolding(crate::specs::Grammar::store_step))]
fn store_step(w: &[u8], addr: &[u8], digits: &[u8]) -> Option<Step>
    ensures value { result ≡ store_step w.now addr.now digits.now }
    ensures within { IfSome result FitsWidth }
{
    let width = width_in(w)?;
    let addr = hex_number(8, addr)?;
    let value = hex_number(2 * width.bytes() as usize, digits)?;
    Some(Step::Store { width, addr, value })
}

#[tactic(auto, unfolding(crate::specs::Grammar::start_step))]
fn start_step(word: &[u8], digits: &[u8], hex: &[u8]) -> Option<Step>
    ensures value { result ≡ start_step word.now digits.now hex.now }
    ensures within { IfSome result FitsWidth }
{
    let discipline = Discipline::from_word_bytes(word)?;
    let counter = decimal(digits)?;
    let nonce = <[u8; 16] as FromHex>::from_hex(hex).ok()?;
    Some(Step::Start {
        discipline,
        counter,
        nonce,
    })
}

/// The step that a line of these words says; None where it says none.
pub fn step_in(words: &Words<'_>) -> Option<Step>
    ensures value { (list : List (List ℕ)) → AreWords words.now list → result ≡ step_of list }
    ensures within { IfSome result FitsWidth }
{
    match *words {
        Words::One(verb) => short_step(verb),
        Words::Three(verb, w, addr) => three_words(verb, w, addr),
        Words::Four(verb, a, b, c) => four_words(verb, a, b, c),
        Words::Two(_, _) | Words::Five(_, _, _, _, _) | Words::More => None,
    }
}

fn three_words(verb: &[u8], w: &[u8], addr: &[u8]) -> Option<Step>
    ensures value { result ≡ step_of (verb.now ∷ w.now ∷ addr.now ∷ []) }
    ensures within { IfSome result FitsWidth }
{
    let width = width_in(w)?;
    let addr = hex_number(8, addr)?;
    if verb == b"load".as_slice() {
        return Some(Step::Load { width, addr });
    }
    None
}

fn four_words(verb: &[u8], a: &[u8], b: &[u8], c: &[u8]) -> Option<Step>
    ensures value { result ≡ step_of (verb.now ∷ a.now ∷ b.now ∷ c.now ∷ []) }
    ensures within { IfSome result FitsWidth }
{
    if verb == b"store".as_slice() {
        return store_step(a, b, c);
    }
    if verb == b"start".as_slice() {
        return start_step(a, b, c);
    }
    None
}
