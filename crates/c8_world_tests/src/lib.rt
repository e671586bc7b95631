//! Tests of c8_world and c8_peer that no script of `c8play sim` can express.
//!
//! `memory` refuses memory to a world, `said` has the bytes of its datagrams, and `opening` opens a peer for which memory
//! runs out. `play` gives a peer datagrams that were cut short, made longer or changed in one byte, each judged by the
//! documents alone (`judge`); `calls` shows that no call of an open peer takes memory. Everything else is in cases/, in
//! cases that begin with `sim_` or `world-`; random matches are those of `games/soak`.
#![tactic(auto)]

#[cfg(test)]
mod calls;
#[cfg(test)]
mod judge;
#[cfg(test)]
mod letter;
#[cfg(test)]
mod memory;
#[cfg(test)]
mod opening;
#[cfg(test)]
mod play;
#[cfg(test)]
mod run;
#[cfg(test)]
mod said;
#[cfg(test)]
mod scene;
#[cfg(test)]
mod scenes;
#[cfg(test)]
mod tells;
