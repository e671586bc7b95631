//! Tests of sessions and of engines: sessions of c8_session over c8_live, their printed lines, and c8_embed.
//!
//! `turns` plays scripts: what the other players send before each turn, and all that the turn sends. `games` plays
//! whole games in one thread, `faults` has what ends a session, and `lines` the progress line. `engines` plays matches of
//! engines with a machine of their own over a queue that loses datagrams, `journals` opens their journals, and `watched`
//! has a watcher. Functions without contracts lend the scripts and rows, so that a proof holds for any of them.
#![tactic(auto)]

#[cfg(test)]
mod engines;
#[cfg(test)]
mod faults;
#[cfg(test)]
mod games;
#[cfg(test)]
mod journals;
#[cfg(test)]
mod letter;
#[cfg(test)]
mod lines;
#[cfg(test)]
mod players;
#[cfg(test)]
mod step;
#[cfg(test)]
mod table;
#[cfg(test)]
mod turns;
#[cfg(test)]
mod watched;
#[cfg(test)]
mod way;
