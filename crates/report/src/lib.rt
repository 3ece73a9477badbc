//! Reports and release notes: what a measurement answers, and what their tags digest.
//!
//! A report says which blocks of which memory were attested, from which place of the history to which, and
//! gives a keyed digest of all that and of the blocks' bytes. A note says where the locks that an extended
//! discipline holds after End were given up.
//!
//! ```rust
//! use hmac256::Hmac;
//! use report::{head, tail};
//!
//! let mut hmac = Hmac::new(key);
//! hmac.update(head(&challenge, &shape).as_slice());
//! hmac.update(attested_bytes);
//! hmac.update(&tail(start, end));
//! let tag: [u8; 32] = hmac.finish();
//! ```
#![tactic(auto)]

mod bytes;
mod heads;
mod notes;
mod reports;
mod shapes;
mod tags;
#[cfg(test)]
mod tests;

pub use bytes::{HeadBytes, LEAST_REPORT_BYTES, MOST_HEAD_BYTES, MOST_REPORT_BYTES, ReportBytes};
pub use challenge::{Challenge, Discipline};
pub use chronicle::Shape;
pub use heads::{head, head_of, note_head, tail};
pub use notes::{NOTE_BYTES, one_note, read_note, write_note};
pub use reports::{one_report, read_report, write_report};
pub use shapes::same_shape;
pub use tags::{begun_tag, note_on, note_tag, report_tag};

/// What a measurement answers.
#[derive(Clone, Copy, Debug, PartialEq, Eq)]
pub struct Report {
    /// The challenge's discipline.
    pub discipline: Discipline,
    /// The challenge's counter.
    pub counter: u64,
    /// The challenge's nonce.
    pub nonce: [u8; 16],
    /// Where the attested blocks lie.
    pub shape: Shape,
    /// The place of Start in the history, counted from 1.
    pub start: u64,
    /// The place of End.
    pub end: u64,
    /// The keyed digest of the head, the attested memory by rising address, and the two places.
    pub tag: [u8; 32],
}

/// What the release of an extended measurement answers, after its report.
#[derive(Clone, Copy, Debug, PartialEq, Eq)]
pub struct Note {
    /// The report's counter.
    pub counter: u64,
    /// The place of Start in the history, counted from 1.
    pub start: u64,
    /// The place of End.
    pub end: u64,
    /// The place of Release.
    pub release: u64,
    /// The keyed digest of the note's head and the report's tag.
    pub tag: [u8; 32],
}
