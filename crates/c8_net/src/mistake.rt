//! Command lines of a match whose words do not fit together, found before any file or socket is touched.

use crate::arguments::Asked;
use c8_udp::is_same_place;
use std::net::SocketAddr;
use thiserror::Error;

/// Why the words of a command line do not fit together.
#[derive(Clone, Copy, Debug, Error)]
pub(crate) enum Mistake<'a> {
    #[error("--watch5 and --watch6 are for player 1 alone")]
    WatchersOfAnother,
    #[error("--watch-secret is for player 1 alone")]
    WatchSecretOfAnother,
    #[error("--watch-secret needs --secret: watchers have one beside that of the players")]
    OpenPlayers,
    #[error("--patience is for player 1 alone, who drops the others")]
    Patience,
    #[error("--relay needs --secret: a relay may read and keep what it carries")]
    OpenRelay,
    #[error("--relay stands for the other players' addresses: give no REMOTE beside it")]
    RelayAndRemotes,
    #[error("give LOCAL and each REMOTE, or --relay")]
    NoAddresses,
    /// A journal in memory is empty at each start. In a used room the others would take its epochs for old ones.
    #[error("without a journal ('-') --room has to be given, a new one for each match")]
    NoRoom,
    /// An address stands in the place of the journal.
    #[error("JOURNAL is missing: {0} is an address; ./{0} is a file of that name")]
    NoJournal(&'a str),
    #[error("REMOTE {0} is LOCAL too: each player has an address of its own")]
    OwnRemote(&'a str),
    #[error("two REMOTEs are {0}: each player has an address of its own")]
    SameRemotes(&'a str),
    #[error("a watcher's address {0} is another's too: each player and watcher has one of its own")]
    SameWatchers(&'a str),
}

/// Returns why the words do not fit together; `None` if they do.
pub(crate) fn mistake_in<'a>(asked: &Asked<'_, 'a>) -> Option<Mistake<'a>> {
    let [five, six] = asked.watchers;
    if !asked.player.is_chair() && (five.is_some() || six.is_some()) {
        return Some(Mistake::WatchersOfAnother);
    }
    if !asked.player.is_chair() && asked.watch_secret.is_some() {
        return Some(Mistake::WatchSecretOfAnother);
    }
    if asked.watch_secret.is_some() && asked.secret.is_none() {
        return Some(Mistake::OpenPlayers);
    }
    if !asked.player.is_chair() && asked.patience.is_some() {
        return Some(Mistake::Patience);
    }
    if is_address(asked.journal) {
        return Some(Mistake::NoJournal(asked.journal));
    }
    if asked.relay.is_some() && asked.secret.is_none() {
        return Some(Mistake::OpenRelay);
    }
    if asked.relay.is_some() && asked.remotes.is_some() {
        return Some(Mistake::RelayAndRemotes);
    }
    if asked.relay.is_none() && asked.local.is_empty() && asked.remotes.is_none() {
        return Some(Mistake::NoAddresses);
    }
    if asked.has_no_journal() && !asked.has_room {
        return Some(Mistake::NoRoom);
    }
    shared_remote(asked).or(shared_watcher(asked))
}

/// Returns a REMOTE that is LOCAL or another REMOTE, if there is one.
fn shared_remote<'a>(asked: &Asked<'_, 'a>) -> Option<Mistake<'a>> {
    let remotes = asked.remotes.unwrap_or(&[]);
    for place in 0..remotes.len() {
        let remote = remotes[place];
        if is_same_place(asked.local, remote) {
            return Some(Mistake::OwnRemote(remote));
        }
        if remotes[..place].iter().any(|it| is_same_place(it, remote)) {
            return Some(Mistake::SameRemotes(remote));
        }
    }
    None
}

/// Returns a watcher's address that is LOCAL, a REMOTE or the other watcher's, if there is one.
fn shared_watcher<'a>(asked: &Asked<'_, 'a>) -> Option<Mistake<'a>> {
    let [five, six] = asked.watchers;
    if let Some(word) = five.filter(|word| is_taken(asked, word)) {
        return Some(Mistake::SameWatchers(word));
    }
    let word = six?;
    let is_both = five.is_some_and(|five| is_same_place(five, word));
    (is_both || is_taken(asked, word)).then_some(Mistake::SameWatchers(word))
}

/// Whether a word is LOCAL or a REMOTE too.
fn is_taken(asked: &Asked<'_, '_>, word: &str) -> bool {
    let remotes = asked.remotes.unwrap_or(&[]);
    is_same_place(asked.local, word) || remotes.iter().any(|it| is_same_place(it, word))
}

/// Whether a word spells an address.
fn is_address(word: &str) -> bool {
    word.parse::<SocketAddr>().is_ok()
}
