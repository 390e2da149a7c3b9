//! The six relations.

/// A relation of two rows.
#[derive(Clone, Copy, PartialEq, Eq)]
pub enum Relation {
    /// Equal.
    Eq,
    /// Not equal.
    Neq,
    /// The left one comes before the right one.
    Lt,
    /// The left one does not come after the right one.
    LtEq,
    /// The left one comes after the right one.
    Gt,
    /// The left one does not come before the right one.
    GtEq,
}
