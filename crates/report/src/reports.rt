//! The byte form of reports.

ghost use Rattle.std.specs.Prelude.{◌≡◌, ◌⊎◌, ◌+◌, ◌*◌, ◌≤◌, ◌↔◌, ◌<◌, ℕ, List, length, slice_index, Some, None, IsTrue};
ghost use Rattle.std.specs.Option.{SomeIff};
ghost use Rattle.history.specs.Attested.{IsRanges};
ghost use Rattle.history.specs.Layout.{IsLayout};
ghost use Rattle.challenge.specs.Numbers.{u32_at};
ghost use Rattle.report.specs.declared.Report.{Report};
ghost use Rattle.report.specs.Reports.{IsReport, FitsReport, SpellsReport, IsReportReading, attested_layout, report_bytes, range_at, ranges_at, report_ranges, report_at, if_report, report_in};

use crate::bytes::{LEAST_REPORT_BYTES, MOST_REPORT_BYTES, ReportBytes, append};
use crate::{Report, head_of, tail};
use arrayvec::ArrayVec;
use block_memory::Geometry;
use challenge::{Discipline, discipline_with, u32_at, u64_at};
use chronicle::Shape;
use history::{layouts_are_tested, ranges_are_tested};
use lock_plan::{Range, Ranges};

/// The blocks lie in a memory that a device may have, in ranges that it may have.
fn is_attested_shape(shape: &Shape) -> bool
    ensures { IsTrue result ↔ (IsLayout (attested_layout shape.now) × IsRanges shape.now.ranges) }
{
    Geometry::new(shape.base, shape.size, shape.ranges.end()).is_some()
}

impl Report {
    ghost use Rattle.std.specs.Prelude.{◌↔◌, IsTrue};
    ghost use Rattle.report.specs.Reports.{IsReport};

    /// A measurement may answer it: its blocks lie in a memory that a device may have, and between Start and End is
    /// room for a Copy of each.
    pub fn is_valid(&self) -> bool
        ensures { IsTrue result ↔ IsReport self.now }
    {
        is_attested_shape(&self.shape)
            && self.start >= 1
            && self.end > self.start
            && self.end - self.start > u64::from(self.shape.ranges.total())
    }
}

/// The one spelling of a report of the grammar: version 1 where its shape has one range, else version 2.
#[tactic(auto, unfolding(crate::specs::Reports::report_bytes))]
pub fn write_report(report: &Report) -> ReportBytes
    requires { IsReport report.now }
    ensures value { result ≡ report_bytes report.now }
    // What is written is read again.
    ensures again { report_in result ≡ Some report.now }
{
    layouts_are_tested();
    ranges_are_tested();
    let head = head_of(
        report.discipline,
        report.counter,
        &report.nonce,
        &report.shape,
    );
    let mut bytes = ArrayVec::new();
    append(&mut bytes, head.as_slice());
    append(&mut bytes, &tail(report.start, report.end));
    append(&mut bytes, &report.tag);
    ReportBytes { bytes }
}

/// The range whose two numbers stand at this place.
fn range_at(bytes: &[u8], place: usize) -> Range
    requires { place + 8 ≤ length bytes.now }
    ensures { result ≡ range_at bytes.now place }
{
    Range {
        first: u32_at(bytes, place),
        attested: u32_at(bytes, place + 4),
    }
}

/// Fills the list with the ranges that stand one behind the other from this place on.
fn fill_ranges(bytes: &[u8], place: usize, list: &mut [Range])
    requires { place + 8 * length list.old ≤ length bytes.now }
    ensures { list.new ≡ ranges_at bytes.now place (length list.old) }
{
    'filling: for k in 0..list.len() {
        list[k] = range_at(bytes, place + 8 * k);
    }
}

/// The ranges in a report with so many bytes. None exactly where no device may have them.
fn report_ranges(bytes: &[u8]) -> Option<Ranges>
    requires fewest { 96 ≤ length bytes.now }
    requires most { length bytes.now ≤ 156 }
    ensures { SomeIff result (IsRanges (report_ranges bytes.now)) (report_ranges bytes.now) }
{
    let mut list = [Range {
        first: 0,
        attested: 0,
    }; 8];
    if bytes.len() == LEAST_REPORT_BYTES {
        fill_ranges(bytes, 40, &mut list[..1]);
        return Ranges::new(&list[..1]);
    }
    let count = (bytes.len() - 92) / 8;
    fill_ranges(bytes, 44, &mut list[..count]);
    Ranges::new(&list[..count])
}

/// The report with this discipline and these ranges whose other fields stand at their places.
fn report_at(bytes: &[u8], discipline: Discipline, ranges: Ranges) -> Report
    requires long { 96 ≤ length bytes.now }
    requires ranges { ranges ≡ report_ranges bytes.now }
    ensures { result ≡ report_at bytes.now discipline }
{
    let mut nonce = [0; 16];
    nonce.copy_from_slice(&bytes[16..32]);
    let mut tag = [0; 32];
    tag.copy_from_slice(&bytes[bytes.len() - 32..]);
    Report {
        discipline,
        counter: u64_at(bytes, 8),
        nonce,
        shape: Shape {
            base: u32_at(bytes, 32),
            size: u32_at(bytes, 36),
            ranges,
        },
        start: u64_at(bytes, bytes.len() - 48),
        end: u64_at(bytes, bytes.len() - 40),
        tag,
    }
}

/// The report, if it is in the grammar and these are its bytes. So no byte is passed over.
fn if_report(report: Report, bytes: &[u8]) -> Option<Report>
    ensures { result ≡ if_report bytes.now report }
{
    layouts_are_tested();
    ranges_are_tested();
    if !report.is_valid() {
        return None;
    }
    if write_report(&report).as_slice() != bytes {
        return None;
    }
    Some(report)
}

// The report that these bytes are, if they are one's.
fn found(bytes: &[u8]) -> Option<Report>
    ensures { result ≡ report_in bytes.now }
{
    layouts_are_tested();
    ranges_are_tested();
    if bytes.len() < LEAST_REPORT_BYTES {
        return None;
    }
    if bytes.len() > MOST_REPORT_BYTES {
        return None;
    }
    let Some(discipline) = discipline_with(bytes[4]) else {
        return None;
    };
    let Some(ranges) = report_ranges(bytes) else {
        return None;
    };
    if_report(report_at(bytes, discipline, ranges), bytes)
}

/// The report that these bytes are. None exactly where they are those of no report of the grammar.
pub fn read_report(bytes: &[u8]) -> Option<Report>
    ensures value { result ≡ report_in bytes.now }
    ensures reading { IsReportReading bytes.now result }
{
    one_report();
    found(bytes)
}

/// A byte list is that of at most one report, a report has at most one, whose length its number of ranges says; a
/// definition that computes says which report it is, and of a report's bytes says that report. A report that names its
/// version as the second and has one range is none.
pub fn one_report()
    ensures value { (bytes : List ℕ) (a b : Report) → SpellsReport bytes a → SpellsReport bytes b → a ≡ b }
    ensures spelling { (a b : List ℕ) (r : Report) → SpellsReport a r → SpellsReport b r → a ≡ b }
    ensures size { (bytes : List ℕ) (r : Report) → SpellsReport bytes r
        → ((length r.shape.ranges ≡ 1) × (length bytes ≡ 96)) ⊎ ((2 ≤ length r.shape.ranges) × (length bytes ≡ 92 + 8 * length r.shape.ranges)) }
    ensures read { (bytes : List ℕ) → ((i : ℕ) → slice_index bytes i < 256) → IsReportReading bytes (report_in bytes) }
    ensures again { (r : Report) → IsReport r → FitsReport r → report_in (report_bytes r) ≡ Some r }
    ensures one_range { (bytes : List ℕ) → ((i : ℕ) → slice_index bytes i < 256)
        → slice_index bytes 3 ≡ 0x32 → u32_at bytes 40 ≡ 1 → report_in bytes ≡ None }
{
    layouts_are_tested();
    ranges_are_tested();
}
