// Why a call on the outside was refused.
use thiserror::Error;

/// The object failed: its count of faults rose in this call, or stands at `2^64 - 1`.
#[derive(Clone, Copy, Debug, PartialEq, Eq, Error)]
#[error("the outside failed")]
pub struct Failed;

/// Why bytes couldn't be read whole.
#[derive(Clone, Copy, Debug, PartialEq, Eq, Error)]
pub enum ReadFault {
    /// A read failed: the object's count of faults rose in this call, or stands at `2^64 - 1`.
    #[error("a read failed")]
    Failed,
    /// There are more bytes than the limit.
    #[error("too long")]
    TooLong,
    /// Memory ran out. It may come at any time.
    #[error("out of memory")]
    Memory,
    /// Nothing has this name. Only what is read by name answers it.
    #[error("not found")]
    Missing,
}

/// Why a file couldn't be written.
#[derive(Clone, Copy, Debug, PartialEq, Eq, Error)]
pub enum FileFault {
    /// A call failed: the object's count of faults rose in this call, or stands at `2^64 - 1`.
    #[error("a file's call failed")]
    Failed,
    /// Memory ran out. It may come at any time.
    #[error("out of memory")]
    Memory,
}

/// Why a device file or a verifier file was refused.
#[derive(Clone, Copy, Debug, PartialEq, Eq, Error)]
pub enum DeviceFault {
    /// The first rule of the file's grammar that it breaks, by the rule's number.
    #[error("rule {0} is broken")]
    Rule(u32),
    /// Memory ran out. It may come at any time.
    #[error("out of memory")]
    Memory,
}
