//! What a relay serves over HTTP, and to whom.
ghost use Rattle.std.specs.Prelude.{◌≡◌, option_map, string_bytes};
ghost use Rattle.std.specs.List.{list_any};
ghost use Rattle.std.specs.Str.{bytes_eq};
ghost use Rattle.c8_relay_web.specs.Sites.{is_admitted};

use crate::page::Pages;

/// The files of a relay, and the pages that may use it.
#[derive(Drop)]
pub struct Site {
    pub pages: Pages,
    /// The origins whose pages may open a WebSocket, as `https://example.org`. If there are none, all may.
    pub origins: Vec<String>,
}

impl Site {
    /// Whether a page of this origin may open a WebSocket. A client that names none counts as one of no origin.
    pub(crate) fn admits(&self, origin: Option<&[u8]>) -> bool
        ensures { result ≡ is_admitted self.now (option_map (λ it. it.now) origin.entry) }
    {
        match origin {
            Some(origin) => self.origins.is_empty() || self.names(origin),
            None => self.origins.is_empty(),
        }
    }

    /// Whether an origin is one of those that were named.
    fn names(&self, origin: &[u8]) -> bool
        ensures { result ≡ list_any (λ own. bytes_eq (string_bytes own) origin.now) self.now.origins.items }
    {
        self.origins
            .iter()
            .any(|own| is_same(own.as_bytes(), origin))
    }
}

/// Whether two texts are the same.
pub(crate) fn is_same(one: &[u8], other: &[u8]) -> bool
    ensures { result ≡ bytes_eq one.now other.now }
{
    one == other
}
