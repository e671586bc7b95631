//! What a relay serves over HTTP.

use c8_game::Game;
use c8_udp::address_at;
use std::io::{Read, Write};
use std::net::{Net, OpenStream};
use std::time::Duration;

/// How many seconds a relay may take to answer.
const PATIENCE: u64 = 3;

/// The most bytes of an answer that are read: more than the text of a game has.
const LONGEST: u64 = 65536;

/// How an answer with a file begins.
const FOUND: &[u8] = b"HTTP/1.1 200 ";

/// What stands before the content.
const END_OF_HEAD: &[u8] = b"\r\n\r\n";

/// What a relay serves of a match.
#[derive(Clone, Copy, Debug, PartialEq, Eq)]
pub(crate) enum Served {
    /// No page.
    Nothing,
    /// The page, but not the game.
    Page,
    /// The page, and the game under the name that was asked for.
    Game,
}

/// Asks a relay whether it serves the page, and this game under this name.
pub(crate) fn pages_at<R>(rt: &R, relay: &str, name: Option<&str>, game: &Game) -> Served
where
    R: Net + AllocGlobal,
{
    if body_at(rt, relay, "").is_none() {
        return Served::Nothing;
    }
    let Some(name) = name else {
        return Served::Page;
    };
    let Ok(path) = format!(in rt.alloc(); "{name}.game") else {
        return Served::Page;
    };
    let Some(text) = body_at(rt, relay, path.as_str()) else {
        return Served::Page;
    };
    match Game::read(rt.alloc(), &text) {
        Ok(there) if there.session(0) == game.session(0) => Served::Game,
        _ => Served::Page,
    }
}

/// The content of a file that a relay serves, if it does.
fn body_at<R: Net + AllocGlobal>(rt: &R, relay: &str, path: &str) -> Option<Vec<u8>> {
    let answer = answer_at(rt, relay, path)?;
    if !answer.starts_with(FOUND) {
        return None;
    }
    for place in 0..answer.len() {
        if answer[place..].starts_with(END_OF_HEAD) {
            let mut body = Vec::new(rt.alloc());
            body.extend_from_slice(&answer[place + END_OF_HEAD.len()..])
                .ok()?;
            return Some(body);
        }
    }
    None
}

/// What a relay answers to a request for a file; `None` if it does not answer in time.
fn answer_at<R: Net + AllocGlobal>(rt: &R, relay: &str, path: &str) -> Option<Vec<u8>> {
    let address = address_at(rt, relay, None)?;
    let request = format!(in rt.alloc();
        "GET /{path} HTTP/1.1\r\nHost: {relay}\r\nConnection: close\r\n\r\n"
    ).ok()?;
    let patience = Duration::from_secs(PATIENCE);
    let mut stream = rt.connect_timeout(address, patience).ok()?;
    stream.set_read_timeout(Some(patience)).ok()?;
    stream.write_all(request.as_bytes()).ok()?;
    let mut answer = Vec::new(rt.alloc());
    stream.take(LONGEST).read_to_end(&mut answer).ok()?;
    Some(answer)
}
