//! The tests of c8_command: arguments that cannot be read, and texts whose reader fails.
mod arguments;
mod readers;
