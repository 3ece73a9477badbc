//! Whether two memories have the same attested blocks.

ghost use Rattle.std.specs.Prelude.{◌≡◌, ◌==◌, ◌&&◌};
ghost use Rattle.report.specs.Shapes.{same_ranges, same_shape};

use chronicle::Shape;
use lock_plan::{Range, Ranges};

// The two ranges are the same.
fn same_range(a: Range, b: Range) -> bool
    ensures { result ≡ ((a.first == b.first) && (a.attested == b.attested)) }
{
    a.first == b.first && a.attested == b.attested
}

// The same blocks are attested.
fn same_ranges(a: &Ranges, b: &Ranges) -> bool
    ensures { result ≡ same_ranges a.now b.now }
{
    if a.count() != b.count() {
        return false;
    }
    for k in 0..a.count() {
        if !same_range(a.range(k), b.range(k)) {
            return false;
        }
    }
    true
}

/// Whether the attested blocks of both lie at the same places.
pub fn same_shape(a: &Shape, b: &Shape) -> bool
    ensures { result ≡ same_shape a.now b.now }
{
    a.base == b.base && a.size == b.size && same_ranges(&a.ranges, &b.ranges)
}
