// The tick of the last line `tick N ..` of a text that comes in pieces.

// What such a line begins with.
const FRONT: &[u8; 5] = b"tick ";

// How far a line was read.
#[derive(Clone, Copy)]
enum Place {
    // So many bytes of the front stood there.
    Front(u8),
    // The number so far.
    Number(u64),
    // Behind it, or in another line.
    Rest,
}

/// The tick of the last line `tick N ..`.
#[derive(Clone, Copy)]
pub(crate) struct TickLine {
    place: Place,
    tick: Option<u64>,
}

impl TickLine {
    pub(crate) const NONE: TickLine = TickLine {
        place: Place::Front(0),
        tick: None,
    };

    pub(crate) fn tick(&self) -> Option<u64> {
        self.tick
    }

    /// Reads the next piece of the text.
    pub(crate) fn take(&mut self, piece: &[u8]) {
        for byte in piece {
            self.take_byte(*byte);
        }
    }

    fn take_byte(&mut self, byte: u8) {
        self.place = match self.place {
            _ if byte == b'\n' => Place::Front(0),
            Place::Front(at) if (at as usize) < FRONT.len() && byte == FRONT[at as usize] => {
                if at as usize + 1 == FRONT.len() {
                    Place::Number(0)
                } else {
                    Place::Front(at + 1)
                }
            }
            Place::Number(number) if byte.is_ascii_digit() => {
                Place::Number(
                    number
                        .saturating_mul(10)
                        .saturating_add(u64::from(byte - b'0')),
                )
            }
            Place::Number(number) => {
                self.tick = Some(number);
                Place::Rest
            }
            _ => Place::Rest,
        };
    }
}
