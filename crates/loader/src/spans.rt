//! Where segments lie.

ghost use Rattle.std.specs.Prelude.{◌≡◌, find};
ghost use Rattle.loader.specs.Placing.{is_inside, overlaps};

use block_memory::Geometry;

/// Where a segment lies. It isn't empty.
#[derive(Clone, Copy)]
pub struct Span {
    /// The application, from 1.
    pub app: u32,
    /// The segment, from 0.
    pub segment: u32,
    /// The address of the first byte.
    pub addr: u32,
    /// How many bytes it takes.
    pub size: u32,
}

/// All bytes of the segment lie in memory.
pub fn is_inside(geometry: &Geometry, span: &Span) -> bool
    ensures { result ≡ is_inside geometry.now span.now }
{
    let end = u64::from(span.addr) + u64::from(span.size);
    let past_end = u64::from(geometry.base()) + u64::from(geometry.byte_count());
    geometry.base() <= span.addr && end <= past_end
}

/// The segments share a byte.
fn overlaps(a: &Span, b: &Span) -> bool
    ensures { result ≡ overlaps a.now b.now }
{
    let end_of_a = u64::from(a.addr) + u64::from(a.size);
    let end_of_b = u64::from(b.addr) + u64::from(b.size);
    u64::from(a.addr) < end_of_b && u64::from(b.addr) < end_of_a
}

/// The first of the segments that shares a byte with this one.
pub fn first_overlap(spans: &[Span], span: &Span) -> Option<Span>
    ensures { result ≡ find (λ e. overlaps e span.now) spans.now }
{
    for earlier in spans {
        if overlaps(earlier, span) {
            return Some(*earlier);
        }
    }
    None
}
