//! Tests of the threads of a peer and of a watcher: workers and boards of c8_live, and c8_watch.
//!
//! `packets` moves packets between two inlets and a wire in memory. `matches` plays a game with two game workers in
//! threads of their own, whose relays are joined, and lets a net worker and a game worker wait for each other. `run` has a
//! run of rows without keys, which `board` and `threads` publish frame by frame.
//!
//! Tests of facts about a match in threads that no clause states: the threads make their turns, at the same time and by
//! the table of turns; and a draw follows its choice. Of the command `rig`: what its threads do (`counts`), that its
//! script has the log and leads to the same end (`replays`, `verdicts`), and what it refuses (`refusals`).
#![tactic(auto)]

#[cfg(test)]
mod board;
#[cfg(test)]
mod counts;
#[cfg(test)]
mod ethers;
#[cfg(test)]
mod gates;
#[cfg(test)]
mod matches;
#[cfg(test)]
mod packets;
#[cfg(test)]
mod refusals;
#[cfg(test)]
mod replays;
#[cfg(test)]
mod rig_gates;
#[cfg(test)]
mod rig_matches;
#[cfg(test)]
mod run;
#[cfg(test)]
mod sides;
#[cfg(test)]
mod table;
#[cfg(test)]
mod threads;
#[cfg(test)]
mod verdicts;
#[cfg(test)]
mod watching;
