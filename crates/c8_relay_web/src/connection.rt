//! One connection: first the head of an HTTP request, then WebSocket messages, a page, or a refusal.
ghost use Rattle.std.specs.Prelude.{◌≡◌, ◌≤◌, ◌↔◌, ◌++◌, [], ℕ, List, IsTrue, MatchBool, Some, drop, take};
ghost use Rattle.std.specs.Vec.{vec_capacity};
ghost use Rattle.websocket.specs.Connection.{max_reply_len};
ghost use Rattle.websocket.specs.Handshake.{response_bytes};
ghost use Rattle.c8_relay_web.specs.Frames.{fresh};
ghost use Rattle.c8_relay_web.specs.Requests.{IsAsked};
ghost use Rattle.c8_relay_web.specs.Steps.{HasPacket, IfGives, IsGiven, IsRefused, IsSent, LacksRoom, Follows, is_open, later, unread, waiting};

use crate::frames::{Said, opened, write_close, write_packet};
use crate::inbox::{Filled, Inbox};
use crate::outbox::Outbox;
use crate::page::Part;
use crate::reply::{ACCEPTED, HEAD_END, Refused};
use crate::request::{Asked, Upgrade, asked_in};
use crate::shared::Shared;
use c8_relay::{Address, LONGEST_READ};
use c8_udp::bits_of;
use mio::net::TcpStream;
use mio::{Interest, Registry, Token};
use std::io;
use std::io::{ErrorKind, Write};
use std::net::{IpAddr, Shutdown};
use websocket::protocol::WebSocketContext;

/// How many microseconds a client has to send the head of its request, and to close a connection that ends.
const HURRY: u64 = 5_000_000;

/// How many microseconds a WebSocket may be idle, or a page may wait for its reader.
const SILENCE: u64 = 30_000_000;

/// The most steps of a connection in one turn.
const MOST_STEPS: usize = 64;

/// The most bytes of a page that are sent in one turn.
const MOST_SENT: usize = 65_536;

/// How far a connection has come.
#[derive(Drop)]
enum Stage {
    Head,
    Open(WebSocketContext),
    Page(Sending),
    /// The bytes that wait are sent, and then it ends.
    Ending,
    /// All was sent. What the client still sends is dropped: a reset could overtake the last bytes.
    Ended,
}

/// A page that is being sent.
#[derive(Clone, Copy)]
struct Sending {
    place: usize,
    part: Part,
    sent: usize,
}

/// What a connection gives in its turn.
#[derive(Clone, Copy, PartialEq, Eq)]
pub(crate) enum Next {
    /// A packet of this many bytes.
    Packet(usize),
    /// Nothing yet, and it wants another turn.
    Later,
    /// Nothing until its socket is ready.
    Nothing,
    /// It is over.
    Over,
}

/// Who is at the other end of a connection.
#[derive(Clone, Copy)]
pub(crate) struct Guest {
    /// The client's host, with IPv4 mapped into IPv6.
    host: u128,
    /// A number that no other connection ever has.
    number: u64,
}

impl Guest {
    /// Its address as a member of rooms.
    pub(crate) fn address(self) -> Address
        ensures { result ≡ Address.Connection self.host self.number }
    {
        let (host, number) = (self.host, self.number);
        Address::Connection { host, number }
    }

    /// Whether this is its address.
    pub(crate) fn is_at(self, address: Address) -> bool
        ensures yes { IsTrue result → address ≡ Address.Connection self.host self.number }
        ensures known { address ≡ Address.Connection self.host self.number → IsTrue result }
    {
        let Address::Connection { host, number } = address else {
            return false;
        };
        host == self.host && number == self.number
    }
}

/// A connection. It takes no memory but its own.
#[derive(Drop)]
pub(crate) struct Connection {
    stream: TcpStream,
    guest: Guest,
    /// Whether it comes from this machine, as a proxy does.
    is_local: bool,
    stage: Stage,
    inbox: Inbox,
    outbox: Outbox,
    /// Whether the socket may have something to read.
    is_readable: bool,
    /// Whether the client will send no more than what the socket has.
    hangs_up: bool,
    /// When it is closed if nothing happens, in microseconds.
    until: u64,
}

/// The network of a host that has a limit of connections: not of this machine, where a proxy speaks for many.
pub(crate) fn network_of(host: IpAddr) -> Option<u128> {
    if host.to_canonical().is_loopback() {
        return None;
    }
    let (host, number) = (bits_of(host), 0);
    Some(Address::Connection { host, number }.network())
}

impl Connection {
    /// Begins with the head of a request.
    pub(crate) fn new(stream: TcpStream, number: u64, host: IpAddr, now: u64) -> Connection
        ensures number { result.guest.number ≡ number }
        ensures stage { result.stage ≡ Stage.Head }
        ensures unread { unread result ≡ [] }
        ensures waiting { waiting result ≡ [] }
        ensures hurry { result.until ≡ later now HURRY }
    {
        Connection {
            stream,
            guest: Guest {
                host: bits_of(host),
                number,
            },
            is_local: host.to_canonical().is_loopback(),
            stage: Stage::Head,
            inbox: Inbox::new(),
            outbox: Outbox::new(),
            is_readable: true,
            hangs_up: false,
            until: now.saturating_add(HURRY),
        }
    }

    /// Lets a poll wait for it.
    pub(crate) fn register(&mut self, registry: &Registry, token: Token) -> io::Result<()> {
        let interests = Interest::READABLE | Interest::WRITABLE;
        registry.register(&mut self.stream, token, interests)
    }

    /// Who is at its other end.
    pub(crate) fn guest(&self) -> Guest
        ensures { result ≡ self.now.guest }
    {
        self.guest
    }

    /// Whether it is a WebSocket.
    pub(crate) fn is_open(&self) -> bool
        ensures { result ≡ is_open self.now.stage }
    {
        matches!(self.stage, Stage::Open(_))
    }

    /// Whether it has to be closed by now.
    pub(crate) fn is_late(&self, now: u64) -> bool
        ensures { IsTrue result ↔ (self.now.until ≤ now) }
    {
        now >= self.until
    }

    /// Whether there is something to read without waiting.
    pub(crate) fn has_more(&self) -> bool {
        self.is_readable || !self.inbox.is_empty()
    }

    /// Notes that its socket may have something to read; `hangs_up`: and that nothing will follow it.
    pub(crate) fn wake(&mut self, hangs_up: bool) {
        self.is_readable = true;
        self.hangs_up = self.hangs_up || hangs_up;
    }

    /// Takes the next packet, and goes on with all else.
    pub(crate) fn next(&mut self, shared: &mut Shared, packet: &mut [u8; LONGEST_READ]) -> Next
        ensures number { self.new.guest.number ≡ self.old.guest.number }
        ensures served { (size : ℕ) → waiting self.old ≡ [] → HasPacket self.old.stage (unread self.old) size
            → max_reply_len ≤ vec_capacity shared.old.frame → result ≡ Next.Packet size }
    {
        for _step in 0..MOST_STEPS {
            if let Some(next) = self.step(shared, packet) {
                return next;
            }
        }
        Next::Later
    }

    /// Makes one step; `None` if another may follow at once.
    fn step(&mut self, shared: &mut Shared, packet: &mut [u8; LONGEST_READ]) -> Option<Next>
        ensures number { self.new.guest.number ≡ self.old.guest.number }
        ensures given { IfGives result (λ size. IsGiven self.old self.new (take size packet.new)) }
        ensures served { (size : ℕ) → waiting self.old ≡ [] → HasPacket self.old.stage (unread self.old) size
            → max_reply_len ≤ vec_capacity shared.old.frame → result ≡ Some (Next.Packet size) }
    {
        if !self.outbox.flush(&self.stream) {
            return Some(Next::Over);
        }
        match &mut self.stage {
            Stage::Head => self.head(shared),
            Stage::Open(_) => self.message(shared, packet),
            Stage::Page(_) => self.page(shared),
            Stage::Ending => self.finish(),
            Stage::Ended => {
                self.inbox.clear();
                self.fill()
            }
        }
    }

    /// Reads what has come; `None` if there was something.
    fn fill(&mut self) -> Option<Next>
        ensures stage { self.new.stage ≡ self.old.stage }
        ensures waiting { waiting self.new ≡ waiting self.old }
        ensures more { (more : List ℕ) × (unread self.new ≡ unread self.old ++ more) }
        ensures number { self.new.guest.number ≡ self.old.guest.number }
        ensures quiet { IfGives result (λ _. ⊥) }
    {
        if !self.is_readable {
            return Some(Next::Nothing);
        }
        match self.inbox.fill(&self.stream) {
            Filled::More => None,
            Filled::All => {
                self.is_readable = self.hangs_up;
                None
            }
            Filled::Nothing => {
                self.is_readable = false;
                Some(Next::Nothing)
            }
            Filled::Over => Some(Next::Over),
        }
    }

    /// Reads the head of a request.
    fn head(&mut self, shared: &Shared) -> Option<Next>
        requires { self.old.stage ≡ Stage.Head }
        ensures number { self.new.guest.number ≡ self.old.guest.number }
        ensures follows { (asked : Asked) × IsAsked (unread self.old) shared.entry.now.site asked
            × Follows asked shared.entry.now.now self.old self.new }
        ensures quiet { IfGives result (λ _. ⊥) }
    {
        let now = shared.now;
        match asked_in(self.inbox.bytes(), &shared.site) {
            Asked::Unknown if self.inbox.is_full() => self.refuse(Refused::TooLarge, now),
            Asked::Unknown => self.fill(),
            Asked::Upgrade(upgrade) => self.open(upgrade, shared),
            Asked::Page(place, part) => {
                let sent = 0;
                self.stage = Stage::Page(Sending { place, part, sent });
                self.until = now.saturating_add(SILENCE);
                None
            }
            Asked::Refused(refused) => self.refuse(refused, now),
        }
    }

    /// Says why the request is refused.
    fn refuse(&mut self, refused: Refused, now: u64) -> Option<Next>
        ensures number { self.new.guest.number ≡ self.old.guest.number }
        ensures quiet { IfGives result (λ _. ⊥) }
        ensures refused { IsRefused refused now self.old self.new }
    {
        self.outbox.say(refused.response());
        self.end(now)
    }

    /// Ends once all is sent.
    fn end(&mut self, now: u64) -> Option<Next>
        ensures number { self.new.guest.number ≡ self.old.guest.number }
        ensures quiet { IfGives result (λ _. ⊥) }
        ensures waiting { waiting self.new ≡ waiting self.old }
        ensures stage { self.new.stage ≡ Stage.Ending }
        ensures until { self.new.until ≡ later now HURRY }
    {
        self.stage = Stage::Ending;
        self.until = now.saturating_add(HURRY);
        None
    }

    /// Becomes a WebSocket.
    fn open(&mut self, upgrade: Upgrade, shared: &Shared) -> Option<Next>
        ensures number { self.new.guest.number ≡ self.old.guest.number }
        ensures quiet { IfGives result (λ _. ⊥) }
        ensures open { self.new.stage ≡ Stage.Open fresh }
        ensures rest { unread self.new ≡ drop upgrade.length (unread self.old) }
        ensures said { waiting self.old ≡ [] → waiting self.new ≡ response_bytes upgrade.accept [] }
        ensures until { self.new.until ≡ later shared.entry.now.now SILENCE }
    {
        if let Some(host) = upgrade.host
            && self.is_local
        {
            let number = self.guest.number;
            let host = bits_of(host);
            self.guest = Guest { host, number };
        }
        self.outbox.say(ACCEPTED);
        self.outbox.say(&upgrade.accept);
        self.outbox.say(HEAD_END);
        self.inbox.consume(upgrade.length);
        self.stage = Stage::Open(opened(shared.alloc));
        self.until = shared.now.saturating_add(SILENCE);
        None
    }

    /// Sends more of a page.
    fn page(&mut self, shared: &Shared) -> Option<Next>
        ensures number { self.new.guest.number ≡ self.old.guest.number }
        ensures quiet { IfGives result (λ _. ⊥) }
    {
        let Stage::Page(sending) = self.stage else {
            return Some(Next::Over);
        };
        let Some(page) = shared.site.pages.get(sending.place) else {
            return Some(Next::Over);
        };
        let bytes = page.part(sending.part);
        let first = sending.sent;
        if first >= bytes.len() {
            return self.end(shared.now);
        }
        let last = first + MOST_SENT.min(bytes.len() - first);
        match (&self.stream).write(&bytes[first..last]) {
            Ok(0) => Some(Next::Over),
            Ok(size) => {
                let sent = first.saturating_add(size);
                self.stage = Stage::Page(Sending { sent, ..sending });
                self.until = shared.now.saturating_add(SILENCE);
                Some(Next::Later)
            }
            Err(error) if error.kind() == ErrorKind::WouldBlock => Some(Next::Nothing),
            Err(_) => Some(Next::Over),
        }
    }

    /// Reads the next message.
    fn message(&mut self, shared: &mut Shared, packet: &mut [u8; LONGEST_READ]) -> Option<Next>
        ensures number { self.new.guest.number ≡ self.old.guest.number }
        ensures given { IfGives result (λ size. IsGiven self.old self.new (take size packet.new)) }
        ensures served { (size : ℕ) → HasPacket self.old.stage (unread self.old) size → max_reply_len ≤ vec_capacity shared.old.frame
            → result ≡ Some (Next.Packet size) }
    {
        let Stage::Open(context) = &mut self.stage else {
            return Some(Next::Over);
        };
        let said = self.inbox.next_frame(context, &mut shared.frame, packet);
        if let Said::Wrong(code) = said {
            write_close(context, code, &mut shared.frame);
        }
        // Where there is no room, a client that reads nothing gets no answer.
        self.outbox.say(shared.frame.as_slice());
        match said {
            Said::Packet(size) => Some(Next::Packet(size)),
            Said::Sign => None,
            Said::Goodbye | Said::Wrong(_) => self.end(shared.now),
            Said::Unknown => self.listen(shared.now),
        }
    }

    /// Reads what has come; `None` if there was something.
    fn listen(&mut self, now: u64) -> Option<Next>
        ensures number { self.new.guest.number ≡ self.old.guest.number }
        ensures quiet { IfGives result (λ _. ⊥) }
    {
        let next = self.fill();
        if next.is_none() {
            self.until = now.saturating_add(SILENCE);
        }
        next
    }

    /// Once all is sent, says that no more will come.
    fn finish(&mut self) -> Option<Next>
        ensures number { self.new.guest.number ≡ self.old.guest.number }
        ensures quiet { IfGives result (λ _. ⊥) }
    {
        if !self.outbox.is_empty() {
            return Some(Next::Nothing);
        }
        if self.stream.shutdown(Shutdown::Write).is_err() {
            return Some(Next::Over);
        }
        self.stage = Stage::Ended;
        None
    }

    /// Sends a packet, or loses it where too much waits already. Returns whether it was taken.
    pub(crate) fn say(&mut self, shared: &mut Shared, packet: &[u8]) -> bool
        ensures number { self.new.guest ≡ self.old.guest }
        ensures said { MatchBool result (IsSent self.old self.new packet.now)
            ((waiting self.new ≡ waiting self.old) × LacksRoom (vec_capacity shared.old.frame) self.old packet.now) }
    {
        let Stage::Open(context) = &mut self.stage else {
            return false;
        };
        if !write_packet(context, packet, &mut shared.frame) {
            return false;
        }
        if !self.outbox.say(shared.frame.as_slice()) {
            return false;
        }
        // A stream that fails here fails in its next turn too.
        let _ = self.outbox.flush(&self.stream);
        true
    }
}
