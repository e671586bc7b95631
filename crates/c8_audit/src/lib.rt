//! Judges the journals of a match. Were the inputs in them entered, are their checkpoints true, and do the players who were
//! not dropped agree?
//!
//! [`read_image`] and [`read_again`] read a file twice, without locking or changing it. [`gather`] finds the journals of one
//! match in such readings; [`journal_in`] reads each, or says why it refuses it. [`judge`] answers the questions, and
//! [`write_audit`] prints the answers. The command `audit` is c8_judge's. `replay` reads its journal by [`read_image`] and
//! [`known_in`] too.
//!
//! `specs/Journal.antt` says which bytes are a journal, `Images.antt` which journals files keep, `OneMatch.antt` when they
//! are of one match, `Journals.antt` what they make known, `Verdicts.antt` when each verdict is yes and which fault a no
//! names, `Audit.antt` which refusal follows, `Honest.antt` what an honest match leaves. [`laws`]: a yes means
//! agreement, and an honest match is never accused.
#![tactic(auto)]

mod agreed;
mod below;
mod conclusion;
mod count;
mod entered;
mod error;
mod fault;
mod files;
mod image;
mod journal;
mod kept;
pub mod laws;
mod reading;
mod report;
mod search;
mod tallies;
mod truth;
mod verdict;

pub use agreed::is_dropped;
pub use conclusion::{Conclusion, conclusion_of};
pub use count::{digest_of, least_count};
pub use entered::cut_of;
pub use error::{
    AuditFault, GatherError, JournalError, Mismatch, Unfit, Unread, Unreadable, name_of,
};
pub use fault::{Answer, Fault, Question, Short};
pub use files::{Gathered, Twice, gather};
pub use image::{LONGEST_IMAGE, has_bytes, image_of, read_again, read_image};
pub use journal::{Journal, Named, journal_of};
pub use kept::{KeptJournal, journal_in, known_in};
pub use report::{check_of, fault_of, write_audit};
pub use search::PLAYERS_END;
pub use tallies::{Tally, tally_of};
pub use verdict::{Verdicts, judge};
