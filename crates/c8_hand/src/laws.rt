//! Facts for callers that belong to no single call: laws of links. Each is the contract of a function that does
//! nothing.
ghost use Rattle.std.specs.Prelude.{◌≡◌, ◌≢◌, ℕ, ◌≤◌, None, true, false};
ghost use Rattle.c8_wire.specs.declared.kinds.DatagramKind.TheVariants as kinds;
ghost use Rattle.c8_wire.specs.Packet.{HeadValue};
ghost use Rattle.c8_hand.specs.Links.{LinksValue, link_to, refusal, refusal_of_seen, admission, link_after, heard, IsForMe, NamesBoth, OpensByWelcome};

/// An admitted datagram is of this match. Unless it is a SEEN, it comes from another player. Except for HELLO, a
/// player's datagram names the own epoch. Except for HELLO and WELCOME it names the known epoch of its sender, and the
/// link to the sender is open.
pub fn what_is_admitted()
    ensures player { (l : LinksValue) (head : HeadValue) → head.kind ≢ kinds.Seen
        → admission l head ≡ refusal l head }
    ensures watcher { (l : LinksValue) (head : HeadValue) → head.kind ≡ kinds.Seen
        → admission l head ≡ refusal_of_seen l head }
    ensures mine { (l : LinksValue) (head : HeadValue) → refusal l head ≡ None
        → IsForMe l head × (head.kind ≢ kinds.Seen) }
    ensures welcome { (l : LinksValue) (head : HeadValue) → refusal l head ≡ None
        → head.kind ≡ kinds.Welcome → head.addressee_epoch ≡ l.epoch }
    ensures both { (l : LinksValue) (head : HeadValue) → refusal l head ≡ None
        → head.kind ≢ kinds.Hello → head.kind ≢ kinds.Welcome → NamesBoth l head }
    ensures is_open { (l : LinksValue) (head : HeadValue) → refusal l head ≡ None
        → head.kind ≢ kinds.Hello → head.kind ≢ kinds.Welcome
        → (link_to l head.from).is_open ≡ true }
{}

/// A datagram of a player changes the link to that player, and no other link.
pub fn hearing_changes_one_link()
    ensures sender { (l : LinksValue) (head : HeadValue) → 1 ≤ head.from → head.from ≤ 4
        → link_to (heard l head) head.from
        ≡ link_after head.kind (link_to l head.from) head.sender_epoch }
    ensures others { (l : LinksValue) (head : HeadValue) (player : ℕ) → player ≢ head.from
        → link_to (heard l head) player ≡ link_to l player }
{}

/// Only a WELCOME opens a link: one from the player of the link that names both epochs.
pub fn only_a_welcome_opens()
    ensures { (l : LinksValue) (head : HeadValue) → admission l head ≡ None
        → OpensByWelcome l head (heard l head) }
{}

/// A known epoch never falls.
pub fn known_epochs_never_fall()
    ensures { (l : LinksValue) (head : HeadValue) (player : ℕ) → admission l head ≡ None
        → (link_to l player).known ≤ (link_to (heard l head) player).known }
{}
