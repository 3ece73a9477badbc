//! The tags of reports and of notes.

ghost use Rattle.std.specs.Prelude.{◌≡◌};
ghost use Rattle.report.specs.Reports.{asked_of};
ghost use Rattle.report.specs.Tags.{head_bytes, report_tag, note_tag};
ghost use Rattle.hmac256.specs.States.{StandsFor};

use crate::{Note, Report, head_of, note_head, tail};
use hmac256::Hmac;

/// The tag of a report with these fields as it begins: it has the report's head, and is to get the attested bytes, and
/// then those of `tail`.
pub fn begun_tag(key: &[u8], report: &Report) -> Hmac
    ensures { StandsFor result key.now (head_bytes (asked_of report.now) report.now.shape) }
{
    let head = head_of(
        report.discipline,
        report.counter,
        &report.nonce,
        &report.shape,
    );
    let mut hmac = Hmac::new(key);
    hmac.update(head.as_slice());
    hmac
}

/// The tag of a report with these fields, whatever its own tag, if the attested memory held these bytes.
#[tactic(auto, unfolding(crate::specs::Tags::report_tag))]
pub fn report_tag(key: &[u8], report: &Report, attested: &[u8]) -> [u8; 32]
    ensures { result ≡ report_tag key.now (asked_of report.now) report.now.shape attested.now report.now.start report.now.end }
{
    let mut hmac = begun_tag(key, report);
    hmac.update(attested);
    hmac.update(&tail(report.start, report.end));
    hmac.finish()
}

/// The tag of a note with these places on a report with this tag.
#[tactic(auto, unfolding(crate::specs::Tags::note_tag))]
pub fn note_tag(
    key: &[u8],
    counter: u64,
    start: u64,
    end: u64,
    release: u64,
    report_tag: &[u8; 32],
) -> [u8; 32]
    ensures { result ≡ note_tag key.now counter start end release report_tag.now }
{
    let mut hmac = Hmac::new(key);
    hmac.update(&note_head(counter, start, end, release));
    hmac.update(report_tag);
    hmac.finish()
}

/// The note on the release, at this place, of what the report is on.
pub fn note_on(key: &[u8], report: &Report, release: u64) -> Note
    ensures counter { result.counter ≡ report.now.counter }
    ensures start { result.start ≡ report.now.start }
    ensures end { result.end ≡ report.now.end }
    ensures release { result.release ≡ release }
    ensures tag { result.tag ≡ note_tag key.now report.now.counter report.now.start report.now.end release report.now.tag }
{
    Note {
        counter: report.counter,
        start: report.start,
        end: report.end,
        release,
        tag: note_tag(
            key,
            report.counter,
            report.start,
            report.end,
            release,
            &report.tag,
        ),
    }
}
