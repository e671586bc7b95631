//! The addresses to which packets for a player or watcher go, and how an address is learnt.

ghost use Rattle.std.specs.Prelude.{◌≡◌};
ghost use Rattle.c8_udp.specs.Contacts.{after, address_of};

use crate::addresses::is_same;
use std::net::SocketAddr;

/// Where packets for a player or watcher go.
#[derive(Clone, Copy, Debug, PartialEq, Eq)]
pub(crate) enum Contact {
    /// Nowhere: there is no such player or watcher here.
    Nobody,
    /// To an address of the command line, which never changes.
    Named(SocketAddr),
    /// To where the packet with the greatest counter came from, once one has come.
    Learnt(Option<Place>),
}

/// From where a sealed packet came, and its counter.
#[derive(Clone, Copy, Debug, PartialEq, Eq)]
pub(crate) struct Place {
    pub(crate) address: SocketAddr,
    pub(crate) counter: u64,
}

impl Contact {
    /// Returns whether this is the named address of the contact.
    pub(crate) fn is_named(self, from: SocketAddr) -> bool {
        match self {
            Contact::Named(address) => is_same(address, from),
            Contact::Nobody | Contact::Learnt(_) => false,
        }
    }

    /// Returns the contact after a sealed packet of its owner came from a place. Only a greater counter moves it, so a
    /// copy of a packet moves nobody.
    pub(crate) fn heard(self, place: Place) -> Contact
        ensures { result ≡ after place self }
    {
        match self {
            Contact::Learnt(None) => Contact::Learnt(Some(place)),
            Contact::Learnt(Some(known)) => {
                let newest = if known.counter < place.counter {
                    place
                } else {
                    known
                };
                Contact::Learnt(Some(newest))
            }
            Contact::Nobody | Contact::Named(_) => self,
        }
    }

    /// Returns the address to send to, if there is one.
    pub(crate) fn address(self) -> Option<SocketAddr>
        ensures { result ≡ address_of self }
    {
        match self {
            Contact::Nobody => None,
            Contact::Named(address) => Some(address),
            Contact::Learnt(place) => place.map(|place| place.address),
        }
    }
}
