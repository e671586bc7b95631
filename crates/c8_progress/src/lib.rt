//! That a match cannot get stuck, as laws over the worlds of c8_world. No code runs here.
#![tactic(auto)]

pub mod laws;
