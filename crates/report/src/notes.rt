//! The byte form of release notes.

ghost use Rattle.std.specs.Prelude.{◌≡◌, ◌<◌, ℕ, List, length, slice_index, Some};
ghost use Rattle.report.specs.declared.Note.{Note};
ghost use Rattle.report.specs.Notes.{IsNote, SpellsNote, IsNoteReading, note_bytes, note_at, if_note, note_in};

use crate::{Note, note_head};
use challenge::u64_at;

/// The bytes of a release note.
pub const NOTE_BYTES: usize = 72;

impl Note {
    ghost use Rattle.std.specs.Prelude.{◌↔◌, IsTrue};
    ghost use Rattle.report.specs.Notes.{IsNote};

    /// A release may answer it: Start, End and Release follow one another.
    pub fn is_valid(&self) -> bool
        ensures { IsTrue result ↔ IsNote self.now }
    {
        self.start >= 1 && self.start < self.end && self.end < self.release
    }
}

/// The one spelling of a note of the grammar.
#[tactic(auto, unfolding(crate::specs::Notes::note_bytes))]
pub fn write_note(note: &Note) -> [u8; NOTE_BYTES]
    requires { IsNote note.now }
    ensures value { result ≡ note_bytes note.now }
    // What is written is read again.
    ensures again { note_in result ≡ Some note.now }
{
    let Note {
        counter,
        start,
        end,
        release,
        tag,
    } = *note;
    let mut out = [0u8; NOTE_BYTES];
    out[40..].copy_from_slice(&tag);
    out[..40].copy_from_slice(&note_head(counter, start, end, release));
    out
}

/// The note, if it is in the grammar and these are its bytes. So no byte is passed over.
fn if_note(note: Note, bytes: &[u8]) -> Option<Note>
    requires { length bytes.now ≡ NOTE_BYTES }
    ensures { result ≡ if_note bytes.now note }
{
    if !note.is_valid() {
        return None;
    }
    if write_note(&note).as_slice() != bytes {
        return None;
    }
    Some(note)
}

/// The note whose fields stand at their places.
fn note_at(bytes: &[u8]) -> Note
    requires { length bytes.now ≡ NOTE_BYTES }
    ensures { result ≡ note_at bytes.now }
{
    let mut tag = [0; 32];
    tag.copy_from_slice(&bytes[40..]);
    Note {
        counter: u64_at(bytes, 8),
        start: u64_at(bytes, 16),
        end: u64_at(bytes, 24),
        release: u64_at(bytes, 32),
        tag,
    }
}

/// The note that these bytes are. None exactly where they are those of no note of the grammar.
#[tactic(auto, unfolding(crate::specs::Notes::note_in))]
pub fn read_note(bytes: &[u8]) -> Option<Note>
    ensures value { result ≡ note_in bytes.now }
    ensures reading { IsNoteReading bytes.now result }
{
    if bytes.len() != NOTE_BYTES {
        return None;
    }
    if_note(note_at(bytes), bytes)
}

/// A byte list is that of at most one note, and a definition that computes says which.
pub fn one_note()
    ensures value { (bytes : List ℕ) (a b : Note) → SpellsNote bytes a → SpellsNote bytes b → a ≡ b }
    ensures read { (bytes : List ℕ) → ((i : ℕ) → slice_index bytes i < 256) → IsNoteReading bytes (note_in bytes) }
{}
