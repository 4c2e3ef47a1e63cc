//! The forms of a report.

/// The form of a report.
#[derive(Clone, Copy, Debug, PartialEq, Eq)]
pub enum Form {
    /// In lines for people and editors.
    Lines,
    /// Objects of JSON, one in place of each line.
    Objects,
}
