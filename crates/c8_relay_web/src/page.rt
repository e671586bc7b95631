//! Files that are served over HTTP.
ghost use Rattle.std.specs.Prelude.{◌≡◌, ◌≤◌, ◌<◌, ◌&&◌, ◌++◌, ◌∷◌, [], IfOk, OnOk, codes, drop, length, nat_eq, option_copied, slice_get, string_bytes};
ghost use Rattle.std.specs.List.{position, starts_with};
ghost use Rattle.std.specs.Str.{bytes_eq};
ghost use Rattle.std.specs.Vec.{vec_len};
ghost use Rattle.c8_relay_web.specs.Paths.{contains, names, names_tag};
ghost use Rattle.c8_relay_web.specs.Parts.{part_of};

use crate::site::is_same;
use sha2::{Digest, Sha256};
use std::alloc::{AllocError, Global};
use std::str;

/// How many bytes of a file's SHA-256 its tag has.
const TAG_LENGTH: usize = 16;

/// How many bytes an entity tag has: two digits a byte, and two quotation marks.
pub(crate) const ETAG_LENGTH: usize = 2 * TAG_LENGTH + 2;

/// What browsers may do with a page: only what comes from this relay, and WebAssembly.
const POLICY: &str = "default-src 'self'; script-src 'self' 'wasm-unsafe-eval'";

/// Which part of a page a request asks for.
#[derive(Clone, Copy, PartialEq, Eq)]
pub(crate) enum Part {
    /// Its head and its bytes.
    Whole,
    /// Its head alone, for HEAD.
    Head,
    /// That it has not changed.
    Unchanged,
}

/// A file, as the responses that serve it.
#[derive(Drop)]
pub struct Page {
    /// Its path in a URL, as `/play/index.html`.
    path: String,
    etag: [u8; ETAG_LENGTH],
    /// The response with its bytes.
    whole: Vec<u8>,
    /// How many bytes of that are the head.
    head: usize,
    /// The response to a client that has these bytes already.
    unchanged: Vec<u8>,
    ghost head_within: { head ≤ length whole.items },
}

impl Page {
    /// Makes the responses that serve a file.
    pub(crate) fn new(
        alloc: Global,
        path: String,
        kind: &str,
        bytes: &[u8],
    ) -> Result<Page, AllocError>
        ensures path { IfOk result (λ page. page.path ≡ path) }
        ensures bytes { IfOk result (λ page. drop page.head page.whole.items ≡ bytes.now) }
    {
        let etag = etag_of(bytes);
        let tag = str::from_utf8(&etag).unwrap_or("");
        let length = bytes.len();
        let fields = format!(in alloc;
            "etag: {tag}\r\ncache-control: no-cache\r\ncontent-security-policy: {POLICY}\r\nx-content-type-options: nosniff\r\nconnection: close\r\n\r\n"
        )?;
        let fields = fields.as_str();
        let head = format!(in alloc;
            "HTTP/1.1 200 OK\r\ncontent-type: {kind}\r\ncontent-length: {length}\r\n{fields}"
        )?;
        let unchanged = format!(in alloc; "HTTP/1.1 304 Not Modified\r\n{fields}")?;
        let mut whole = Vec::from_slice(alloc, head.as_bytes())?;
        let head = whole.len();
        whole.extend_from_slice(bytes)?;
        let unchanged = Vec::from_slice(alloc, unchanged.as_bytes())?;
        Ok(Page {
            path,
            etag,
            whole,
            head,
            unchanged,
        })
    }

    /// Whether a path of a request names it. A folder's path names its `index.html`.
    pub(crate) fn is_at(&self, path: &[u8]) -> bool
        ensures { result ≡ names path.now (string_bytes self.now.path) }
    {
        let own = self.path.as_bytes();
        is_same(own, path) || path.ends_with(b"/") && is_index(own, path)
    }

    /// Whether the value of `If-None-Match` names its bytes.
    pub(crate) fn is_named(&self, tags: &[u8]) -> bool
        ensures { result ≡ names_tag tags.now self.now.etag }
    {
        is_same(tags, b"*") || contains(tags, &self.etag)
    }

    /// The bytes of a response.
    pub(crate) fn part(&self, part: Part) -> &[u8]
        ensures { result.now ≡ part_of part self.now.whole.items self.now.head self.now.unchanged.items }
    {
        match part {
            Part::Whole => self.whole.as_slice(),
            Part::Head => &self.whole.as_slice()[..self.head],
            Part::Unchanged => self.unchanged.as_slice(),
        }
    }
}

/// The file that a folder's path names.
const INDEX: &[u8] = b"index.html";

/// Whether a text is a folder's path with `index.html` behind it.
fn is_index(own: &[u8], folder: &[u8]) -> bool
    ensures { result ≡ (starts_with nat_eq own.now folder.now && bytes_eq (drop (length folder.now) own.now) (codes "index.html")) }
{
    own.starts_with(folder) && is_same(&own[folder.len()..], INDEX)
}

/// The entity tag of a file's bytes: the first bytes of their SHA-256, as digits in quotation marks.
fn etag_of(bytes: &[u8]) -> [u8; ETAG_LENGTH] {
    let digest = Sha256::digest(bytes);
    let mut etag = [b'"'; ETAG_LENGTH];
    for place in 0..TAG_LENGTH {
        etag[1 + 2 * place] = digit(digest[place] / 16);
        etag[2 + 2 * place] = digit(digest[place] % 16);
    }
    etag
}

/// A hexadecimal digit.
fn digit(value: u8) -> u8
    requires { value < 16 }
{
    if value < 10 {
        b'0' + value
    } else {
        b'a' + (value - 10)
    }
}

/// Whether one text stands in another.
#[tactic(auto, using(crate::proofs::SiteLemmas::from_place))]
fn contains(text: &[u8], word: &[u8]) -> bool
    ensures { result ≡ contains text.now word.now }
{
    for place in 0..text.len() {
        let (_, rest) = text.split_at(place);
        if rest.starts_with(word) {
            return true;
        }
    }
    false
}

/// All files that are served.
#[derive(Drop)]
pub struct Pages {
    pages: Vec<Page>,
}

impl Pages {
    /// No files.
    pub fn none(alloc: Global) -> Pages
        ensures { result.pages.items ≡ [] }
    {
        Pages {
            pages: Vec::new(alloc),
        }
    }

    /// Adds a file.
    pub(crate) fn add(&mut self, page: Page) -> Result<(), AllocError>
        ensures { OnOk result (self.new.pages.items ≡ self.old.pages.items ++ page ∷ []) }
    {
        self.pages.push(page)?;
        Ok(())
    }

    /// How many files there are.
    pub fn len(&self) -> usize
        ensures { result ≡ vec_len self.now.pages }
    {
        self.pages.len()
    }

    /// The place of the first page that a path of a request names.
    pub(crate) fn find(&self, path: &[u8]) -> Option<usize>
        ensures { result ≡ position (λ page. names path.now (string_bytes page.path)) self.now.pages.items }
    {
        self.pages.iter().position(|page| page.is_at(path))
    }

    /// The page at a place.
    pub(crate) fn get(&self, place: usize) -> Option<&Page>
        ensures { option_copied result ≡ slice_get self.now.pages.items place }
    {
        self.pages.as_slice().get(place)
    }
}
