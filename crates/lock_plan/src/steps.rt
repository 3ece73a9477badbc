//! The steps of a measurement, as the order rule names them.

/// What the measurer may do next, beside letting time go by.
#[derive(Clone, Copy, Debug, PartialEq, Eq)]
pub enum PlanStep {
    /// Begin a pass: none is open.
    Start,
    /// Copy this block, numbered from the first of memory.
    Copy(u32),
    /// End the pass: every attested block is copied.
    End,
    /// Give up the locks that an extended discipline holds after End.
    Release,
}
