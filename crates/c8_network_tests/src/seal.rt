//! The tests of sealed packets: the vectors of RFC 4231, the tags of another implementation; a wire that seals over
//! one in memory, packets that were altered or cut, and the texts of secrets.
//!
//! Tables are lent by functions that say nothing of them: a proof is then of any rows.
mod hmac;
mod loops;
mod packets;
mod texts;
mod wires;
