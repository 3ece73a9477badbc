//! Why a challenge isn't served.
use thiserror::Error;

/// Why bytes are no challenge under a key.
#[derive(Clone, Copy, Debug, PartialEq, Eq, Error)]
pub enum ChallengeFault {
    /// The bytes aren't in the grammar of challenges.
    #[error("malformed")]
    Malformed,
    /// The bytes are in the grammar, and their MAC isn't the one of the key and the first 40 bytes.
    #[error("badmac")]
    BadMac,
}

/// The challenge's counter isn't greater than that of a challenge that was served before.
#[derive(Clone, Copy, Debug, PartialEq, Eq, Error)]
#[error("stale {last}")]
pub struct Stale {
    /// The greatest counter that was served.
    pub last: u64,
}
