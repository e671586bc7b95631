//! What all connections share.

use crate::frames::LONGEST_FRAME;
use crate::site::Site;
use std::alloc::{AllocError, Global};

/// What all connections share.
#[derive(Drop)]
pub(crate) struct Shared {
    pub alloc: Global,
    pub site: Site,
    /// The time, in microseconds.
    pub now: u64,
    /// A buffer with room for the longest frame.
    pub frame: Vec<u8>,
}

impl Shared {
    /// Takes memory for a frame.
    pub(crate) fn new(alloc: Global, site: Site) -> Result<Shared, AllocError> {
        Ok(Shared {
            alloc,
            site,
            now: 0,
            frame: Vec::with_capacity(alloc, LONGEST_FRAME)?,
        })
    }
}
