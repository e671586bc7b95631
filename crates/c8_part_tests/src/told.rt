//! Whether values print what they should.
use std::alloc::Global;
use std::fmt::{Debug, Display};

/// Returns whether a value prints this text.
pub(crate) fn prints<T: Display + Drop>(alloc: Global, value: T, text: &str) -> bool {
    match format!(in alloc; "{value}") {
        Ok(told) => told.as_str() == text,
        Err(_) => false,
    }
}

/// Returns whether a value's `Debug` text is this one.
pub(crate) fn shows<T: Debug>(alloc: Global, value: &T, text: &str) -> bool {
    match format!(in alloc; "{value:?}") {
        Ok(told) => told.as_str() == text,
        Err(_) => false,
    }
}
