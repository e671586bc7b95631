//! A session on a handle. A handle of zeros is closed: it has none.
ghost use Rattle.std.specs.Prelude.{◌≡◌, Option, None, Some, IsSome, is_some, MatchOption};
ghost use Rattle.std.specs.Borrow.{sem};
ghost use Rattle.c8_embed.specs.Any.{AnyEndpoint};
ghost use Rattle.c8_engine.specs.Held.{held_owns, session_coded};

use crate::codes::{closed_code, replay_code, watcher_code};
use crate::parts::Parts;
use c8_embed::{AnyEndpoint, Role, role_of};
use std::alloc::Global;
use std::marker::Model;
use std::ptr;

/// What C sees as a struct of one pointer.
#[repr(C)]
pub struct Handle {
    at: *mut u8,
    alloc: Global,
    pub ghost value: { Option AnyEndpoint } by { session_coded },
}

impl Model for Handle {
    ghost also_owns = { λ h. held_owns h.alloc h.at h.value };
}

impl Handle {
    ghost use Rattle.c8_engine.specs.Calls.{role_in, refusal_of, lack_of, silence_of};
    ghost use Rattle.c8_engine.specs.Held.Lent.{LendsSession};

    /// Makes a closed handle.
    pub(crate) fn none(alloc: Global) -> Handle
        ensures { result.value ≡ None }
    {
        Handle {
            at: ptr::null_mut(),
            alloc,
        }
    }

    /// Makes an open handle.
    pub(crate) fn of(session: Box<AnyEndpoint>) -> Handle
        ensures { result.value ≡ Some session.value }
    {
        Handle::of_parts(Parts::of(session))
    }

    fn of_parts(parts: Parts<AnyEndpoint, Global>) -> Handle
        ensures { result.value ≡ Some parts.value }
    {
        let Parts { at, alloc } = parts;
        Handle {
            at: at as *mut u8,
            alloc,
        }
    }

    fn into_parts(self) -> Option<Parts<AnyEndpoint, Global>>
        ensures { MatchOption result (self.value ≡ None) (λ p. self.value ≡ Some p.value) }
    {
        let Handle { at, alloc } = self;
        if at.is_null() {
            None
        } else {
            Some(Parts {
                at: at as *mut AnyEndpoint,
                alloc,
            })
        }
    }

    /// Returns whether the handle has a session.
    pub(crate) fn is_open(&mut self) -> bool
        ensures { (result ≡ is_some self.old.value) × (self.new ≡ self.old) }
    {
        !self.at.is_null()
    }

    /// Returns what the session is for; `None` at a closed handle.
    fn role(&mut self) -> Option<Role>
        ensures role { result ≡ role_in self.old.value }
        ensures open { IsSome result → IsSome self.old.value }
        ensures same { self.new ≡ self.old }
    {
        if !self.is_open() {
            return None;
        }
        Some(role_of(self.session()))
    }

    /// Returns the code with which a call that plays is refused; `None` if the session plays.
    pub(crate) fn refusal(&mut self) -> Option<u32>
        ensures refusal { result ≡ refusal_of self.old.value }
        ensures open { result ≡ None → IsSome self.old.value }
        ensures same { self.new ≡ self.old }
    {
        match self.role() {
            None => Some(closed_code()),
            Some(Role::Replay) => Some(replay_code()),
            Some(Role::Watcher) => Some(watcher_code()),
            Some(Role::Player) => None,
        }
    }

    /// Returns the code of a call that needs a player or a replay; `None` if the session is one.
    pub(crate) fn lack(&mut self) -> Option<u32>
        ensures lack { result ≡ lack_of self.old.value }
        ensures open { result ≡ None → IsSome self.old.value }
        ensures same { self.new ≡ self.old }
    {
        match self.role() {
            None => Some(closed_code()),
            Some(Role::Watcher) => Some(watcher_code()),
            Some(Role::Player) => None,
            Some(Role::Replay) => None,
        }
    }

    /// Returns the code of a call that hears or speaks; `None` if the session does so.
    pub(crate) fn silence(&mut self) -> Option<u32>
        ensures silence { result ≡ silence_of self.old.value }
        ensures open { result ≡ None → IsSome self.old.value }
        ensures same { self.new ≡ self.old }
    {
        match self.role() {
            None => Some(closed_code()),
            Some(Role::Replay) => Some(replay_code()),
            Some(Role::Player) => None,
            Some(Role::Watcher) => None,
        }
    }

    /// Lends the session of an open handle.
    pub(crate) fn session(&mut self) -> &mut AnyEndpoint
        requires { IsSome self.old.value }
        ensures* writes_back { sem 𝓛 (LendsSession self.entry result) }
        ensures value { self.old.value ≡ Some result.now }
    {
        unsafe { &mut *(self.at as *mut AnyEndpoint) }
    }
}

impl Drop for Handle {
    fn drop(self) {
        if let Some(parts) = self.into_parts() {
            drop(parts.into_box());
        }
    }
}
