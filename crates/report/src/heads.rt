//! What the tags of reports digest before and behind the attested memory, and what a note begins with.

ghost use Rattle.std.specs.Prelude.{◌≡◌, ◌+◌, ◌≤◌, ◌*◌, ◌++◌, length, drop, flat_map};
ghost use Rattle.std.specs.Int.{to_be_bytes, w64};
ghost use Rattle.challenge.specs.Challenges.{Asked, asked_by};
ghost use Rattle.history.specs.Attested.{IsRanges};
ghost use Rattle.arrayvec.specs.ArrayVec.{array_vec_len};
ghost use Rattle.report.specs.Tags.{head_bytes, note_head_bytes, range_bytes, ranges_bytes, tail_bytes, version_of};

use crate::bytes::{HeadBytes, MOST_HEAD_BYTES, append};
use arrayvec::ArrayVec;
use byteorder::{BigEndian, ByteOrder};
use challenge::{Challenge, Discipline};
use chronicle::Shape;
use lock_plan::{Range, Ranges};

// The version of the format, as a letter.
fn version_of(ranges: &Ranges) -> u8
    ensures value { result ≡ version_of ranges.now }
    ensures ranges { IsRanges ranges.now }
{
    if ranges.count() == 1 { b'1' } else { b'2' }
}

// A range behind what is there.
fn append_range(bytes: &mut ArrayVec<u8, MOST_HEAD_BYTES>, range: Range)
    requires { array_vec_len bytes.old + 8 ≤ MOST_HEAD_BYTES }
    ensures { bytes.new.items ≡ bytes.old.items ++ range_bytes range }
{
    append(bytes, &range.first.to_be_bytes());
    append(bytes, &range.attested.to_be_bytes());
}

// All ranges behind what is there.
fn append_all(bytes: &mut ArrayVec<u8, MOST_HEAD_BYTES>, ranges: &Ranges)
    requires { array_vec_len bytes.old ≤ 44 }
    ensures { bytes.new.items ≡ bytes.old.items ++ flat_map range_bytes ranges.now }
{
    'listing: for k in 0..ranges.count() {
        append_range(bytes, ranges.range(k));
    }
}

// The ranges behind what is there: the only one as it is, or their number and each.
fn append_ranges(bytes: &mut ArrayVec<u8, MOST_HEAD_BYTES>, ranges: &Ranges)
    requires { array_vec_len bytes.old ≤ 40 }
    ensures { bytes.new.items ≡ bytes.old.items ++ ranges_bytes ranges.now }
{
    if ranges.count() == 1 {
        append_range(bytes, ranges.range(0));
        return;
    }
    append(bytes, &ranges.count().to_be_bytes());
    append_all(bytes, ranges);
}

/// What a report with these fields begins with: what was asked for, and which blocks of which memory were attested.
#[tactic(auto, unfolding(crate::specs::Tags::head_bytes))]
pub fn head_of(discipline: Discipline, counter: u64, nonce: &[u8; 16], shape: &Shape) -> HeadBytes
    ensures { let asked : Asked = record { discipline = discipline; counter = counter; nonce = nonce.now } in
        result ≡ head_bytes asked shape.now }
{
    let mut bytes = ArrayVec::new();
    append(
        &mut bytes,
        &[
            b'T',
            b'M',
            b'R',
            version_of(&shape.ranges),
            discipline.code(),
            0,
            0,
            0,
        ],
    );
    append(&mut bytes, &counter.to_be_bytes());
    append(&mut bytes, nonce);
    append(&mut bytes, &shape.base.to_be_bytes());
    append(&mut bytes, &shape.size.to_be_bytes());
    append_ranges(&mut bytes, &shape.ranges);
    HeadBytes { bytes }
}

/// What the report on the challenge begins with: 48 bytes where the shape has one range, and 44 and 8 for each range
/// where it has more.
pub fn head(challenge: &Challenge, shape: &Shape) -> HeadBytes
    ensures { result ≡ head_bytes (asked_by challenge.now) shape.now }
{
    head_of(
        challenge.discipline,
        challenge.counter,
        &challenge.nonce,
        shape,
    )
}

// Two numbers of 64 bits at the front, each highest byte first.
fn put_u64s(out: &mut [u8], first: u64, second: u64)
    requires { 16 ≤ length out.old }
    ensures { out.new ≡ (to_be_bytes w64 first ++ to_be_bytes w64 second) ++ drop 16 out.old }
{
    BigEndian::write_u64(out, first);
    BigEndian::write_u64(&mut out[8..], second);
}

/// The 16 bytes that a tag digests last: the places of Start and End.
#[tactic(auto, unfolding(crate::specs::Tags::tail_bytes))]
pub fn tail(start: u64, end: u64) -> [u8; 16]
    ensures { result ≡ tail_bytes start end }
{
    let mut out = [0u8; 16];
    put_u64s(&mut out, start, end);
    out
}

/// The 40 bytes that a note begins with: the counter, and the places of Start, End and Release.
#[tactic(auto, unfolding(crate::specs::Tags::note_head_bytes))]
pub fn note_head(counter: u64, start: u64, end: u64, release: u64) -> [u8; 40]
    ensures { result ≡ note_head_bytes counter start end release }
{
    let mut out = [0u8; 40];
    out[..4].copy_from_slice(b"TMN1");
    put_u64s(&mut out[8..], counter, start);
    put_u64s(&mut out[24..], end, release);
    out
}
