//! A session with a secret.
ghost use Rattle.std.specs.Prelude.{◌≡◌, None, IfSome, MatchOption};
ghost use Rattle.c8_engine.specs.Codes.{bad_secret_code, sealed_already_code};
ghost use Rattle.c8_engine.specs.Calls.{IfPlaying, IfWatches, silence_of, sender_of, AreSecrets, HasSecrets, TellsSender};
ghost use Rattle.c8_engine.specs.Watched.{HasWatchSecret};

use crate::codes::{bad_secret_code, sealed_already_code};
use crate::handle::Handle;
use c8_embed::{AnyEndpoint, Endpoint, Sender, Side, WatchEndpoint};
use c8_transport::{Secret, Secrets};

/// From now on the session sends and takes sealed packets, with the secret of the players and, if there are any bytes, that of
/// the watchers; a watcher has that one alone, as `secret`. A session takes a secret once, after its opening and before its first packet.
#[unsafe(no_mangle)]
pub extern "C" fn c8_secrets(handle: &mut Handle, secret: &[u8; 32], watchers: &[u8]) -> u32
    ensures silent { IfSome (silence_of handle.old.value) (λ code. (result ≡ code) × (handle.new ≡ handle.old)) }
    ensures sealed { IfPlaying handle.old.value handle.new.value
        (λ e f. HasSecrets e secret.now watchers.now result f) }
    ensures watched { IfWatches handle.old.value handle.new.value
        (λ w v. HasWatchSecret w secret.now watchers.now result v) }
{
    if let Some(code) = handle.silence() {
        return code;
    }
    match handle.session() {
        Side::Player(player) => seal_with(player, secret, watchers),
        Side::Watcher(watcher) => watch_with(watcher, secret, watchers),
    }
}

/// A watcher has the watchers' secret alone.
fn watch_with(watcher: &mut WatchEndpoint, secret: &[u8; 32], watchers: &[u8]) -> u32
    ensures { HasWatchSecret watcher.old secret.now watchers.now result watcher.new }
{
    if !watchers.is_empty() {
        return bad_secret_code();
    }
    let secrets = Secrets {
        players: None,
        watchers: Some(Secret::of(secret)),
    };
    if watcher.seal_with(&secrets) {
        0
    } else {
        sealed_already_code()
    }
}

fn seal_with(session: &mut Endpoint, secret: &[u8; 32], watchers: &[u8]) -> u32
    ensures { HasSecrets session.old secret.now watchers.now result session.new }
{
    let Some(secrets) = secrets_of(secret, watchers) else {
        return bad_secret_code();
    };
    if session.seal_with(&secrets) {
        0
    } else {
        sealed_already_code()
    }
}

/// The secrets of these bytes; `None` if those of the watchers are no secret, or the players'.
fn secrets_of(secret: &[u8; 32], watchers: &[u8]) -> Option<Secrets>
    ensures { MatchOption result
        ((secrets : Secrets) → AreSecrets secret.now watchers.now secrets → ⊥)
        (λ secrets. AreSecrets secret.now watchers.now secrets) }
{
    let players = Secret::of(secret);
    if watchers.is_empty() {
        return Some(Secrets {
            players: Some(players),
            watchers: None,
        });
    }
    if watchers.len() != 32 {
        return None;
    }
    let mut bytes = [0; 32];
    bytes.copy_from_slice(watchers);
    match Secrets::of_both(players, Secret::of(&bytes)) {
        Ok(secrets) => Some(secrets),
        Err(_) => None,
    }
}

/// Who sealed the packet that a session took last.
fn sender_of(session: &AnyEndpoint) -> Option<Sender>
    ensures { result ≡ sender_of session.now }
{
    match session {
        Side::Player(player) => player.sender(),
        Side::Watcher(watcher) => watcher.sender(),
    }
}

/// Returns the seat of the player or watcher whose sealed packet the last delivery took, and writes whether it is the newest
/// of that sender; 0 if it took none.
#[unsafe(no_mangle)]
pub extern "C" fn c8_sender(handle: &mut Handle, newest: &mut bool) -> u8
    ensures same { handle.new.value ≡ handle.old.value }
    ensures closed { handle.old.value ≡ None → (result ≡ 0) × (newest.new ≡ newest.old) }
    ensures sender { IfSome handle.old.value (λ s. TellsSender (sender_of s) result newest.old newest.new) }
{
    if !handle.is_open() {
        return 0;
    }
    match sender_of(handle.session()) {
        Some(sender) => {
            *newest = sender.is_newest;
            sender.from.number
        }
        None => 0,
    }
}
