//! What callers may rely on that no single call says. Each law is the contract of a function that does nothing.
ghost use Rattle.std.specs.Prelude.{None, List};
ghost use Rattle.c8_udp.specs.Contacts.{after_all, IsAtNewest};
ghost use Rattle.c8_udp.specs.declared.contacts.Contact.TheVariants.{Learnt};
ghost use Rattle.c8_udp.specs.declared.contacts.Place.{Place};

/// A learnt player is where its packet with the greatest counter came from, whatever came before, between and after.
pub fn a_learnt_player_is_at_its_newest_packet()
    ensures { (places : List Place) → IsAtNewest places (after_all (Learnt None) places) }
{}
