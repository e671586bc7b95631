//! What the command prints, and what it writes as a script.
use crate::refusals::{ASKED, GAME};
use c8_command::{Status, Text};
use c8_script::{Asked, rig};

const VERDICT: &[u8] = b"lawful yes\nagree yes\n";

/// What the two players do with seed 2878 in four turns each: their generators draw only ticks.
const ONE: &[u8] = b"open 1\ntick 1 a995\ntick 1 68b7\ntick 1 761e\ntick 1 728c\n";

const TWO: &[u8] = b"open 2\ntick 2 49a2\ntick 2 2354\ntick 2 32db\ntick 2 5d77\n";

/// Whether a text is a merge of the lines of two others.
fn is_merged(text: &[u8], one: &[u8], two: &[u8]) -> bool {
    let (mut one, mut two) = (one, two);
    for line in text.split_inclusive(|byte| *byte == b'\n') {
        if let Some(rest) = one.strip_prefix(line) {
            one = rest;
        } else if let Some(rest) = two.strip_prefix(line) {
            two = rest;
        } else {
            return false;
        }
    }
    one.is_empty() && two.is_empty()
}

/// The script has what happened, by the words of the seed. The progress lines come once a second, so usually not in so
/// short a match.
#[test]
fn a_match_has_its_verdict_and_its_script(rt: HostRuntime) {
    let (mut out, mut refused) = (Vec::new(rt.alloc()), Vec::new(rt.alloc()));
    let mut script = Vec::new(rt.alloc());
    let asked = Asked {
        seed: 2878,
        turns: 4,
        script: Some("a.script"),
        progress: true,
        ..ASKED
    };
    let game = Text {
        file: "a.game",
        bytes: GAME.as_bytes(),
    };
    let is_done = match rig(&rt, &asked, game, Some(&mut script), &mut out, &mut refused) {
        Ok(status) => status == Status::Done,
        Err(_) => false,
    };
    assert!(rt; is_done && out.as_slice() == VERDICT);
    assert!(rt; is_merged(&script, ONE, TWO));
}
