//! What a request asks for.
ghost use Rattle.std.specs.Prelude.{◌≡◌, ◌≤◌, ◌==◌, ◌||◌, All, IsTrue, codes, cond, length, option_map, slice_get};
ghost use Rattle.std.specs.Char.{is_ascii_digit};
ghost use Rattle.std.specs.List.{list_all, position};
ghost use Rattle.std.specs.Str.{bytes_eq};
ghost use Rattle.httparse.specs.Spans.{IsHeaderWithin, IsRequestWithin};
ghost use Rattle.websocket.specs.Headers.{eq_ignore_case, fields_of, header_value};
ghost use Rattle.c8_relay_web.specs.Requests.{IsAnswered, IsAsked, IsHost, asks_for_relay, has_tag, is_known, parts_at};
ghost use Rattle.c8_relay_web.specs.Paths.{is_number, is_relay, path_of};

use crate::page::Part;
use crate::reply::{ACCEPT_LENGTH, Refused};
use crate::site::{Site, is_same};
use httparse::spans::{EMPTY_HEADER_SPAN, HeaderSpan, RequestSpans, parse_request};
use httparse::{Error, Status};
use std::net::IpAddr;
use websocket::handshake::server::check_request;

/// The most fields of a head.
const MOST_FIELDS: usize = 64;

/// The path of the relay itself.
const RELAY: &[u8] = b"/relay";

/// What stands before a number, which is for proxies that choose a relay by it.
const NUMBERED: &[u8] = b"/relay/";

/// What a request asks for.
#[derive(Clone, Copy)]
pub(crate) enum Asked {
    /// Its head is not whole yet.
    Unknown,
    /// WebSocket.
    Upgrade(Upgrade),
    /// A part of the page at this place.
    Page(usize, Part),
    Refused(Refused),
}

/// A request for WebSocket.
#[derive(Clone, Copy)]
pub(crate) struct Upgrade {
    /// The value of `Sec-WebSocket-Accept` that answers it.
    pub accept: [u8; ACCEPT_LENGTH],
    /// How many bytes its head has.
    pub length: usize,
    /// The host for which a proxy says that it speaks.
    pub host: Option<IpAddr>,
}

/// Reads the head of a request, with which the input begins.
pub(crate) fn asked_in(input: &[u8], site: &Site) -> Asked
    ensures { IsAsked input.now site.now result }
{
    let mut spans = [EMPTY_HEADER_SPAN; MOST_FIELDS];
    match parse_request(input, &mut spans) {
        Ok(Status::Complete(head)) => answer(input, &head, &spans, site),
        Ok(Status::Partial) => Asked::Unknown,
        Err(Error::TooManyHeaders) => Asked::Refused(Refused::TooLarge),
        Err(_) => Asked::Refused(Refused::Bad),
    }
}

/// What a request with this head asks for.
fn answer(input: &[u8], head: &RequestSpans, spans: &[HeaderSpan], site: &Site) -> Asked
    requires { IsRequestWithin input.now spans.now head.now }
    ensures { IsAnswered (parts_at input.now spans.now head.now) site.now result }
{
    let method = head.method.of(input);
    if !is_known(method) {
        return Asked::Refused(Refused::Method);
    }
    let is_get = is_same(method, b"GET");
    let path = without_query(head.path.of(input));
    if is_relay(path) {
        return upgrade_in(input, head, spans, site);
    }
    let Some(place) = site.pages.find(path) else {
        return Asked::Refused(Refused::Missing);
    };
    let tags = field(input, &spans[..head.headers], b"If-None-Match");
    Asked::Page(place, part_of(site, place, is_get, tags))
}

/// Whether a method is one of those that there are.
fn is_known(method: &[u8]) -> bool
    ensures { result ≡ (bytes_eq method.now (codes "GET") || bytes_eq method.now (codes "HEAD")) }
{
    is_same(method, b"GET") || is_same(method, b"HEAD")
}

/// Which part of a page a request asks for.
fn part_of(site: &Site, place: usize, is_get: bool, tags: Option<&[u8]>) -> Part
    ensures { result ≡ cond (has_tag (option_map (λ it. it.now) tags.entry) (slice_get site.now.pages.pages.items place)) Part.Unchanged
        (cond is_get Part.Whole Part.Head) }
{
    if let Some(page) = site.pages.get(place)
        && let Some(tags) = tags
        && page.is_named(tags)
    {
        return Part::Unchanged;
    }
    if is_get { Part::Whole } else { Part::Head }
}

/// What a request for the relay itself asks for.
fn upgrade_in(input: &[u8], head: &RequestSpans, spans: &[HeaderSpan], site: &Site) -> Asked
    requires within { IsRequestWithin input.now spans.now head.now }
    requires known { IsTrue (is_known (parts_at input.now spans.now head.now)) }
    requires relay { IsTrue (asks_for_relay (parts_at input.now spans.now head.now)) }
    ensures { IsAnswered (parts_at input.now spans.now head.now) site.now result }
{
    let accept = match check_request(input, head, spans) {
        Ok(accept) => accept,
        Err(_) => return Asked::Refused(Refused::NoUpgrade),
    };
    let fields = &spans[..head.headers];
    if !site.admits(field(input, fields, b"Origin")) {
        return Asked::Refused(Refused::Origin);
    }
    Asked::Upgrade(Upgrade {
        accept,
        length: head.len,
        host: host_in(field(input, fields, b"X-Real-IP")),
    })
}

/// The host for which a proxy says that it speaks.
fn host_in(text: Option<&[u8]>) -> Option<IpAddr>
    ensures { IsHost (option_map (λ it. it.now) text.entry) result }
{
    let Some(text) = text else {
        return None;
    };
    match IpAddr::parse_ascii(text) {
        Ok(ip) => Some(ip),
        Err(_) => None,
    }
}

/// The value of the first field with a name.
fn field<'a>(input: &'a [u8], fields: &[HeaderSpan], name: &[u8]) -> Option<&'a [u8]>
    requires { All (IsHeaderWithin (length input.now)) fields.now }
    ensures { option_map (λ it. it.now) result ≡ header_value (fields_of input.now fields.now) name.now }
{
    for one in fields {
        if is_alike(one.name.of(input), name) {
            return Some(one.value.of(input));
        }
    }
    None
}

/// Whether two names are the same but for the case of letters.
fn is_alike(one: &[u8], other: &[u8]) -> bool
    ensures { result ≡ eq_ignore_case one.now other.now }
{
    one.eq_ignore_ascii_case(other)
}

/// A path without the query that may follow it.
fn without_query(target: &[u8]) -> &[u8]
    ensures { result.now ≡ path_of target.now }
{
    match query_in(target) {
        Some(place) => &target[..place],
        None => target,
    }
}

/// The place of the question mark with which the query of a target begins.
fn query_in(target: &[u8]) -> Option<usize>
    ensures { result ≡ position (λ byte. byte == 63) target.now }
{
    target.iter().position(|byte| *byte == b'?')
}

/// Whether a path is `/relay`, or `/relay/N` for a number N.
fn is_relay(path: &[u8]) -> bool
    ensures { result ≡ is_relay path.now }
{
    is_same(path, RELAY) || path.starts_with(NUMBERED) && is_number(&path[NUMBERED.len()..])
}

fn is_number(text: &[u8]) -> bool
    ensures { result ≡ is_number text.now }
{
    !text.is_empty() && are_digits(text)
}

fn are_digits(text: &[u8]) -> bool
    ensures { result ≡ list_all is_ascii_digit text.now }
{
    text.iter().all(|byte| byte.is_ascii_digit())
}
