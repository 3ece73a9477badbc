//! The tags of the last pass, digested as its blocks are copied.

use chronicle::Shape;
use history::Discipline;
use hmac256::Hmac;
use report::{head_of, note_head, tail};
use std::mem;

/// What is kept of the last pass.
#[derive(Drop)]
pub struct Tagger {
    key: Vec<u8>,
    hmac: Hmac,
    counter: u64,
    start: u64,
    end: u64,
    tag: [u8; 32],
}

impl Tagger {
    ghost use Rattle.std.specs.Prelude.{◌≡◌, ℕ, ◌+◌, true, false, List, [], ◌∷◌, length, reverse, Some};
    ghost use Rattle.history.specs.declared.events.Act.TheVariants as act;
    ghost use Rattle.history.specs.declared.events.Entry.{Entry};
    ghost use Rattle.history.specs.Layout.{Setting};
    ghost use Rattle.history.specs.Memory.{block_bytes, memory_after};
    ghost use Rattle.history.specs.Pass.{Pass, pass_after, is_ended};
    ghost use Rattle.history.specs.Worked.{measurer};
    ghost use Rattle.chronicle.specs.Worlds.{shape_of};
    ghost use Rattle.script.specs.Printed.{tag_at_end, tag_at_release};
    ghost use Rattle.script.specs.Tagging.{IsTagging};

    /// The tagger before any pass.
    pub fn new(key: Vec<u8>) -> Tagger
        ensures { (w : Setting) (nonce : List ℕ) → IsTagging w key.items nonce [] result }
    {
        Tagger {
            hmac: Hmac::new(&key),
            key,
            counter: 0,
            start: 0,
            end: 0,
            tag: [0; 32],
        }
    }

    /// A pass has begun at this place.
    pub fn started(
        &mut self,
        discipline: Discipline,
        counter: u64,
        nonce: &[u8; 16],
        shape: &Shape,
        place: u64,
    )
        ensures { (w : Setting) (key old : List ℕ) (past : List Entry) → shape.now ≡ shape_of w → place ≡ length past + 1
            → IsTagging w key old past self.old
            → IsTagging w key nonce.now (measurer (act.Start discipline counter) ∷ past) self.new }
    {
        let mut hmac = Hmac::new(&self.key);
        hmac.update(head_of(discipline, counter, nonce, shape).as_slice());
        self.hmac = hmac;
        self.counter = counter;
        self.start = place;
    }

    /// The pass has copied these bytes of its next block.
    pub fn copied(&mut self, bytes: &[u8])
        ensures { (w : Setting) (key nonce : List ℕ) (past : List Entry) (block : ℕ) → bytes.now ≡ block_bytes w (memory_after w past) block
            → IsTagging w key nonce past self.old
            → IsTagging w key nonce (measurer (act.Copy block) ∷ past) self.new }
    {
        self.hmac.update(bytes);
    }

    /// The pass ends at this place. The tag of its report.
    pub fn ended(&mut self, place: u64) -> [u8; 32]
        ensures tag { (w : Setting) (key nonce : List ℕ) (past : List Entry) (pass : Pass) → place ≡ length past + 1
            → IsTagging w key nonce past self.old → pass_after past ≡ Some pass → is_ended pass ≡ false
            → result ≡ tag_at_end w key nonce past }
        ensures kept { (w : Setting) (key nonce : List ℕ) (past : List Entry) (pass : Pass) → place ≡ length past + 1
            → IsTagging w key nonce past self.old → pass_after past ≡ Some pass → is_ended pass ≡ false
            → IsTagging w key nonce (measurer act.End ∷ past) self.new }
    {
        let mut hmac = mem::replace(&mut self.hmac, Hmac::new(&self.key));
        hmac.update(&tail(self.start, place));
        self.end = place;
        self.tag = hmac.finish();
        self.tag
    }

    /// The pass is released at this place. The tag of the note on it.
    pub fn released(&self, place: u64) -> [u8; 32]
        ensures { (w : Setting) (key nonce : List ℕ) (past : List Entry) (pass : Pass) → place ≡ length past + 1
            → IsTagging w key nonce past self.now → pass_after past ≡ Some pass → is_ended pass ≡ true
            → result ≡ tag_at_release w key nonce past }
    {
        let mut hmac = Hmac::new(&self.key);
        hmac.update(&note_head(self.counter, self.start, self.end, place));
        hmac.update(&self.tag);
        hmac.finish()
    }
}
