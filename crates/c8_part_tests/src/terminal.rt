//! The tests of c8_terminal: exact bytes, 10,000 random screens on a test terminal, the bytes of a keyboard, and keys in words.
mod chance;
mod keyboard;
mod keys;
mod painting;
mod terminal;
