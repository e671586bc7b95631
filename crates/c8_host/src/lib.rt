//! The commands `host` and `join`: `play` for friends, with a secret and a journal each.
//!
//! `host` is player 1: it makes the secret, writes the invitation, and plays. Without a relay it names its own addresses
//! ([`invitation`], [`own_addresses`]), and learns where the friend is. Through a relay it shows a link for each other player
//! (`meeting`, [`short_link`], [`long_link`]), if the relay serves the page (`served`). `join` is another player, and asks for
//! the digits of the secret if its file is missing ([`digits_in`]). `card` has all of that in one file. `journals` decides where
//! the journal is, `checks` whether the match can begin, and `friends` hands the match to c8_play. `commands` is the table of all
//! commands of a match, for the programs c8peer and c8play.
#![tactic(auto)]

mod addresses;
mod arguments;
mod card;
mod checks;
mod commands;
mod digits;
mod friends;
mod help;
mod host;
mod inviting;
mod join;
mod journals;
mod link;
mod meeting;
mod served;

pub use addresses::own_addresses;
pub use arguments::{HOST, JOIN};
pub use card::{Holder, card_text};
pub use commands::{match_commands, match_given};
pub use digits::digits_in;
pub use host::host_given;
pub use inviting::{Invited, filled, invitation, typed};
pub use join::join_given;
pub use link::{Ticket, link_name, long_link, short_link};
