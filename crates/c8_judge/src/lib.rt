//! The commands over journals of matches: `audit` judges those of a match, or of many, and prints what c8_audit answers as
//! lines or as JSON; `journal` says what a journal is, without the text of its game.
//!
//! [`audit_given`] reads the files, without locking or changing them: all journals first, and then all once more.
//! `evidence` finds the journals of one match in them, or why nothing is judged; `json` makes the object of the verdicts.
//! `matches` does this for each folder of a folder, in as many threads as there are processors. [`journal_given`] prints a
//! line for each file, from the [`Summary`] of its records. `lines` has what every object of JSON needs, and `report` the
//! object that `replay --json` prints.
//!
//! `specs/Audited.antt` says how the exit status follows from the files, `PrintedJson.antt` what the object has,
//! `Matches.antt` what is printed of many matches, `Summary.antt` what a summary has of the records, `PrintedReport.antt`
//! what the object of a report has, `Lines.antt` how numbers, refusals and lines are written.
#![tactic(auto)]

mod arguments;
mod command;
mod evidence;
mod help;
mod journal_command;
mod json;
mod lines;
mod matches;
mod report;
mod summary;

pub use arguments::{AUDIT, JOURNAL};
pub use command::audit_given;
pub use journal_command::journal_given;
pub use lines::{MOST_EXACT, line_of, number_of, refused_of, tell_refusal, write_line};
pub use report::write_played;
pub use summary::{Summary, summary_of};
