//! Tests of c8_udp: sockets of the system over the loopback, a socket whose first call fails, and one at a relay.
//!
//! Functions without contracts lend the tables, so that a proof holds for any rows.
mod errors;
mod flood;
mod learning;
mod loss;
mod notes;
mod routes;
mod sockets;
