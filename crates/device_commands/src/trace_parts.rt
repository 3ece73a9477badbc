//! The trace of a run as a file in parts.

ghost use Rattle.std.specs.Prelude.{◌≡◌, ◌<◌, length, slice_get, Some, IfOk, All};
ghost use Rattle.trace.specs.Printable.{IsPrintable};
ghost use Rattle.trace.specs.Text.{trace_parts, trace_text};

use chronicle::Chronicle;
use command_plans::{FileParts, Planned};
use std::alloc::{AllocError, Global};
use std::marker::Model;
use trace::parts_are_the_text;

/// A chronicle whose text is a file, made part by part. Clauses see the chronicle.
#[derive(Drop)]
pub struct TraceParts {
    chronicle: Chronicle,
}

impl Model for TraceParts {
    ghost use Rattle.std.specs.Prelude.{All};
    ghost use Rattle.chronicle.specs.Worlds.{Recorded};
    ghost use Rattle.trace.specs.Printable.{IsPrintable};

    ghost Value = { Recorded };

    ghost view = { λ t. t.chronicle };

    ghost invariant = { λ t. All IsPrintable t.chronicle.entries };
}

impl FileParts for TraceParts {
    ghost parts = { λ t. trace_parts t.world t.entries };

    fn count(&self) -> usize {
        trace::parts(&self.chronicle) as usize
    }

    fn part(&self, alloc: Global, k: usize) -> Result<Vec<u8>, AllocError> {
        trace::part(alloc, &self.chronicle, k as u64)
    }
}

/// The file of this name that has the text of the chronicle. Each entry has to be in the ranges of the text.
pub fn trace_file(
    alloc: Global,
    name: &str,
    chronicle: Chronicle,
) -> Result<Planned<TraceParts>, AllocError>
    requires { All IsPrintable chronicle.entries }
    ensures { IfOk result (λ file. file ≡ record { name = name.now; bytes = trace_text chronicle.world chronicle.entries }) }
{
    parts_are_the_text();
    let name = String::from_str(alloc, name)?;
    Ok(Planned::in_parts(alloc, name, TraceParts { chronicle }))
}
