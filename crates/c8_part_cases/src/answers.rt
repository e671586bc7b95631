//! What commands print.
use std::alloc::Global;
use std::fmt::Display;
use std::io;
use std::io::Write;

/// The printed answers, and the sentence of the last refusal among them.
#[derive(Drop)]
pub struct Answers {
    pub text: Vec<u8>,
    pub why: Vec<u8>,
}

impl Answers {
    pub fn new(alloc: Global) -> Answers {
        Answers {
            text: Vec::new(alloc),
            why: Vec::new(alloc),
        }
    }

    /// Prints a line.
    pub fn tell<T: Display + Drop>(&mut self, line: T) -> io::Result<()> {
        writeln!(self.text, "{line}")
    }

    /// Prints a refusal: the part that refuses, and the number and the name of the error. Keeps its sentence.
    pub fn refuse<E: Display + Drop>(
        &mut self,
        part: &str,
        number: u8,
        name: &str,
        error: E,
    ) -> io::Result<()> {
        self.why.clear();
        write!(self.why, "{error}")?;
        writeln!(self.text, "refused {part} {number} {name}")
    }

    /// Prints a line: a name, and bytes in hexadecimal.
    pub fn spell<T: Display + Drop>(&mut self, name: T, bytes: &[u8]) -> io::Result<()> {
        write!(self.text, "{name}")?;
        write_bytes(&mut self.text, bytes)?;
        writeln!(self.text)
    }

    /// Prints the sentence of the last refusal.
    pub fn explain(&mut self) -> io::Result<()> {
        self.text.extend_from_slice(&self.why)?;
        writeln!(self.text)
    }
}

/// Prints a space and bytes in hexadecimal; nothing if there are none.
pub fn write_bytes(text: &mut Vec<u8>, bytes: &[u8]) -> io::Result<()> {
    if !bytes.is_empty() {
        write!(text, " ")?;
    }
    for byte in bytes {
        write!(text, "{byte:02x}")?;
    }
    Ok(())
}
