//! Matches of all players in one program: `sim` plays one by a script, `rig` one in threads, by chance.
//!
//! A script has one event a line. [`read_script`] reads it, [`faulty_event`] finds its first faulty line, [`write_act`]
//! writes a line, and [`play_script`] runs it in a world of peers. [`sim`] writes each answer, and [`sim_files`] also the
//! players' journals if it is asked to.
//!
//! [`rig`] plays each player in a thread of its own, as a stress test of peers under real threads. [`c8_rig::rig`] plays the
//! match; its contract has the theorem. The command prints the verdict, counts the log while it grows, and writes it as a
//! script for `sim` ([`write_script`]). Its files begin with `rig_`.
#![tactic(auto)]

mod acts;
mod answers;
mod command;
mod error;
mod explain;
mod journals;
mod rig_arguments;
mod rig_command;
mod rig_help;
mod rig_script;
mod rig_watch;
mod script;
mod sim_arguments;
mod sim_help;
mod transcript;
mod watched;

pub use acts::write_act;
pub use answers::{write_answers, write_ends};
pub use command::{sim, sim_files, sim_given};
pub use error::{RigError, ScriptError, SimError};
pub use journals::Journals;
pub use rig_arguments::{Asked, RIG};
pub use rig_command::{rig, rig_file, rig_given};
pub use rig_script::write_script;
pub use script::{faulty_event, read_script};
pub use sim_arguments::SIM;
pub use transcript::{CALLS, CAPACITY, ROOM, Transcript, Unfinished, play_script};
pub use watched::Watched;
