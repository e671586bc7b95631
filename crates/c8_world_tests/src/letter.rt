//! Datagrams written as hexadecimal text.

/// A buffer with a datagram, and zeros after it.
#[derive(Clone, Copy)]
pub(crate) struct Letter {
    bytes: [u8; 64],
    size: usize,
}

/// Returns the value of a lower-case hexadecimal digit.
fn digit(text: u8) -> u8 {
    if text < b'a' {
        text.wrapping_sub(b'0')
    } else {
        text.wrapping_sub(b'a').wrapping_add(10)
    }
}

impl Letter {
    /// Reads bytes from hexadecimal text.
    pub(crate) fn of(text: &str) -> Letter {
        let mut letter = Letter {
            bytes: [0; 64],
            size: 0,
        };
        for pair in text.as_bytes().chunks(2) {
            if let [high, low] = pair {
                let (place, value) = (letter.size, digit(*high).wrapping_mul(16));
                letter.set(place, value.wrapping_add(digit(*low)));
                letter.size = place.saturating_add(1);
            }
        }
        letter
    }

    pub(crate) fn bytes(&self) -> &[u8] {
        self.first(self.size)
    }

    /// Returns the first `size` bytes; zeros follow the datagram.
    pub(crate) fn first(&self, size: usize) -> &[u8] {
        self.bytes.get(..size).unwrap_or(&[])
    }

    pub(crate) fn len(&self) -> usize {
        self.size
    }

    pub(crate) fn byte(&self, place: usize) -> u8 {
        self.bytes.get(place).copied().unwrap_or(0)
    }

    pub(crate) fn set(&mut self, place: usize, value: u8) {
        if let Some(byte) = self.bytes.get_mut(place) {
            *byte = value;
        }
    }
}
