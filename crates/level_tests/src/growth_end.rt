//! How a call ends that is refused a growth.

/// How a call ends that is refused a growth.
#[derive(Clone, Copy, Debug, PartialEq, Eq)]
pub(crate) enum GrowthEnd {
    /// No growth was refused.
    Granted,
    /// It has no memory left.
    Refused,
    /// It succeeds without that growth.
    Spared,
}
