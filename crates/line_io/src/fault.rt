//! Why reading, answering or writing stopped.

use thiserror::Error;

/// Why reading, answering or writing stopped.
#[derive(Clone, Copy, Debug, PartialEq, Eq, Error)]
pub enum IoFault {
    /// The source failed.
    #[error("the input can't be read")]
    Read,
    /// The sink failed.
    #[error("the output can't be written")]
    Write,
    /// The source gave a byte past the limit.
    #[error("the input is longer than its limit")]
    TooLong,
    /// A growth was refused.
    #[error("no memory left")]
    Memory,
}
