//! Texts by index.

// Rows by index are the same of texts and of any bytes.
pub use crate::take::bytes::take;
