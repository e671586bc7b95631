//! Tests of packets on their way: over sockets (`udp`, of c8_udp), sealed (`seal`, of c8_transport), and through a relay: of
//! c8_relay what no clause says, who gets a seat (`joining`), when it is full (`limits`), what it carries (`speaking`).
//!
//! Functions without contracts lend the tables, so that a proof holds for any rows.
#![tactic(auto)]

#[cfg(test)]
mod joining;
#[cfg(test)]
mod limits;
#[cfg(test)]
mod seal;
#[cfg(test)]
mod speaking;
#[cfg(test)]
mod udp;
