//! The verdicts.

ghost use Rattle.std.specs.Prelude.{◌≡◌};
ghost use Rattle.verifier.specs.Verdicts.{has_note_tag, is_on, note_verdict_on};

use challenge::Challenge;
use chronicle::Shape;
use image_set::ImageSet;
use report::{Note, Report, note_tag, read_note, read_report, same_shape};
use std::marker::Model;

/// The verdict on a report: the first of these cases.
#[derive(Clone, Copy, Debug, PartialEq, Eq)]
pub enum Verdict {
    /// The bytes are no report.
    Malformed,
    /// The discipline, the counter or the nonce differs from the expected challenge.
    WrongChallenge,
    /// The counter isn't greater than the last accepted one.
    Stale {
        /// The last accepted counter.
        last: u64,
    },
    /// The attested blocks lie elsewhere than expected.
    WrongShape,
    /// No known image has the report's tag.
    UnknownMemory,
    /// The image at this position has the report's tag, and none before it.
    Accepted {
        /// The position in the set, from 0.
        position: u32,
    },
}

/// The verdict on a release note: the first of these cases.
#[derive(Clone, Copy, Debug, PartialEq, Eq)]
pub enum NoteVerdict {
    /// The bytes are no note.
    Malformed,
    /// The counter or a place differs from the report's, or nothing is released in the report's discipline.
    WrongReport,
    /// The tag isn't the one that the key gives for the note and the report's tag.
    WrongTag,
    /// The locks were given up at this place.
    Accepted {
        /// The place of Release in the history.
        release: u64,
    },
}

// The note is on the release of what the report is on.
fn is_on(report: &Report, note: &Note) -> bool
    ensures { result ≡ is_on report.now note.now }
{
    report.discipline.extended()
        && note.counter == report.counter
        && note.start == report.start
        && note.end == report.end
}

// The note's tag is the one that the key gives for the note and the report's tag.
fn has_note_tag(key: &[u8], report: &Report, note: &Note) -> bool
    ensures { result ≡ has_note_tag key.now report.now note.now }
{
    let tag = note_tag(
        key,
        note.counter,
        note.start,
        note.end,
        note.release,
        &report.tag,
    );
    tag == note.tag
}

// The verdict on a note.
#[tactic(auto, unfolding(crate::specs::Verdicts::note_verdict_on))]
fn note_verdict_on(key: &[u8], report: &Report, note: &Note) -> NoteVerdict
    ensures { result ≡ note_verdict_on key.now report.now note.now }
{
    if !is_on(report, note) {
        return NoteVerdict::WrongReport;
    }
    if !has_note_tag(key, report, note) {
        return NoteVerdict::WrongTag;
    }
    NoteVerdict::Accepted {
        release: note.release,
    }
}

/// A verifier that has sent one challenge and waits for its report.
#[derive(Drop)]
pub struct Verifier<'a> {
    key: &'a [u8],
    expected: Challenge,
    last: u64,
    shape: Shape,
}

impl<'a> Model for Verifier<'a> {
    ghost use Rattle.verifier.specs.Verdicts.{Standing};

    ghost Value = { Standing };

    ghost view = { λ v. record { key = v.key.now; expected = v.expected; last = v.last; shape = v.shape } };
}

impl<'a> Verifier<'a> {
    ghost use Rattle.std.specs.Prelude.{◌≡◌, ◌<◌, ℕ, length};
    ghost use Rattle.std.specs.Option.{option_copied};
    ghost use Rattle.verifier.specs.Verdicts.{Standing, answers, last_after, note_verdict_of, verdict_of, verdict_on, verdict_on_reading};

    /// The verifier that expects the report on this challenge. `last` is the greatest counter that was
    /// accepted so far, and `shape` says where the attested blocks lie.
    pub fn new(key: &'a [u8], expected: Challenge, last: u64, shape: Shape) -> Verifier<'a>
        ensures { let standing : Standing = record { key = key.now; expected = expected; last = last; shape = shape } in result ≡ standing }
    {
        Verifier {
            key,
            expected,
            last,
            shape,
        }
    }

    /// The greatest counter that was accepted so far.
    pub fn last(&self) -> u64
        ensures { result ≡ self.now.last }
    {
        self.last
    }

    // The report says that it answers the expected challenge.
    fn is_answered_by(&self, report: &Report) -> bool
        ensures { result ≡ answers self.now.expected report.now }
    {
        report.discipline.code() == self.expected.discipline.code()
            && report.counter == self.expected.counter
            && report.nonce == self.expected.nonce
    }

    // The verdict on a report.
    #[tactic(auto, unfolding(crate::specs::Verdicts::verdict_on))]
    fn verdict_on(&self, report: &Report, set: &ImageSet) -> Verdict
        ensures verdict { result ≡ verdict_on self.now set.now.images report.now }
        ensures within { (position : ℕ) → result ≡ Verdict.Accepted position → position < length set.now.images }
    {
        if !self.is_answered_by(report) {
            return Verdict::WrongChallenge;
        }
        if report.counter <= self.last {
            return Verdict::Stale { last: self.last };
        }
        if !same_shape(&report.shape, &self.shape) {
            return Verdict::WrongShape;
        }
        match set.find(self.key, report) {
            Some(position) => Verdict::Accepted { position },
            None => Verdict::UnknownMemory,
        }
    }

    // The counter of the last accepted report, after this verdict.
    fn last_after(&self, verdict: Verdict) -> u64
        ensures { result ≡ last_after self.now verdict }
    {
        match verdict {
            Verdict::Accepted { .. } => self.expected.counter,
            Verdict::Malformed
            | Verdict::WrongChallenge
            | Verdict::Stale { .. }
            | Verdict::WrongShape
            | Verdict::UnknownMemory => self.last,
        }
    }

    /// Judges what the bytes of a report were read as, None where they are those of none; the set's images are of this
    /// verifier's shape. An accepted report's counter is the last accepted one from then on. Every other verdict changes
    /// nothing.
    pub fn judge_read(&mut self, report: Option<&Report>, set: &ImageSet) -> Verdict
        requires { set.now.shape ≡ self.old.shape }
        ensures verdict { result ≡ verdict_on_reading self.old set.now.images (option_copied report.entry) }
        ensures last { self.new ≡ record self.old { last = last_after self.old result } }
        // So the set has the image's name.
        ensures within { (position : ℕ) → result ≡ Verdict.Accepted position → position < length set.now.images }
    {
        let verdict = match report {
            Some(report) => self.verdict_on(report, set),
            None => Verdict::Malformed,
        };
        self.last = self.last_after(verdict);
        verdict
    }

    /// Judges the bytes of a report, by what they are read as.
    #[tactic(auto, unfolding(crate::specs::Verdicts::verdict_of))]
    pub fn judge(&mut self, report: &[u8], set: &ImageSet) -> Verdict
        requires { set.now.shape ≡ self.old.shape }
        ensures verdict { result ≡ verdict_of self.old set.now.images report.now }
        ensures last { self.new ≡ record self.old { last = last_after self.old result } }
        ensures within { (position : ℕ) → result ≡ Verdict.Accepted position → position < length set.now.images }
    {
        let report = read_report(report);
        self.judge_read(report.as_ref(), set)
    }

    /// Judges the bytes of a release note on what the report is on.
    #[tactic(auto, unfolding(crate::specs::Verdicts::note_verdict_of))]
    pub fn judge_note(&self, note: &[u8], report: &Report) -> NoteVerdict
        ensures { result ≡ note_verdict_of self.now.key report.now note.now }
    {
        match read_note(note) {
            Some(note) => note_verdict_on(self.key, report, &note),
            None => NoteVerdict::Malformed,
        }
    }
}
