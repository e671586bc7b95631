//! What commands ask of the system.

use std::fs::File;
use std::net::Net;
use std::rt::Files;
use std::sync::Wait;
use std::thread::Threads;
use std::time::Clock;

/// Files, sockets, a clock and memory.
pub trait System: Files<File = File> + Net + Clock + AllocGlobal {}

impl<R: Files<File = File> + Net + Clock + AllocGlobal> System for R {}

/// The same with threads.
pub trait Threaded: System + Threads + Wait + Sync {}

impl<R: System + Threads + Wait + Sync> Threaded for R {}
