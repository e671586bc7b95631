//! The input and output of a console, for proofs.

ghost use Rattle.std.specs.Prelude.{◌≡◌, ◌++◌, []};

use c8_disk::GhostList;

/// The bytes that keys have sent, and the text that was written, oldest first. It takes no space at run time. A console
/// that stores neither can hold one, and define its `typed` and `drawn` by it.
#[derive(Debug, Drop)]
pub struct Exchange {
    pub typed: GhostList<u8>,
    pub drawn: GhostList<u8>,
}

impl Exchange {
    /// Nothing yet.
    pub fn new() -> Exchange
        ensures typed { result.typed.items ≡ [] }
        ensures drawn { result.drawn.items ≡ [] }
    {
        Exchange {
            typed: GhostList::new(),
            drawn: GhostList::new(),
        }
    }

    /// Notes bytes that keys have sent.
    pub fn sent(&mut self, bytes: &[u8])
        ensures typed { self.new.typed.items ≡ self.old.typed.items ++ bytes.now }
        ensures drawn { self.new.drawn.items ≡ self.old.drawn.items }
    {
        extend(&mut self.typed, bytes);
    }

    /// Notes text that was written.
    pub fn wrote(&mut self, text: &[u8])
        ensures typed { self.new.typed.items ≡ self.old.typed.items }
        ensures drawn { self.new.drawn.items ≡ self.old.drawn.items ++ text.now }
    {
        extend(&mut self.drawn, text);
    }
}

impl Default for Exchange {
    fn default() -> Exchange {
        Exchange::new()
    }
}

/// Adds bytes to a list.
fn extend(list: &mut GhostList<u8>, bytes: &[u8])
    ensures { list.new.items ≡ list.old.items ++ bytes.now }
{
    for byte in bytes {
        *list = list.and(byte);
    }
}
