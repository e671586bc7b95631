//! The tests of inlets, the queues of c8_live.
mod calls;
mod threads;
