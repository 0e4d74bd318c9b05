// Reads the text of cases: decimal numbers, separated by anything that is not a digit.
ghost use Rattle.std.specs.Prelude.{length};
ghost use Rattle.std.specs.Iterator.{at_most};

use protocol::step::Step;

// The numbers of a text that are still to be read.
#[derive(Clone, Copy)]
pub struct Numbers<'a> {
    rest: &'a [u8],
}

// Appends a digit. A number of 19 digits takes no more, so it cannot overflow.
fn with_digit(number: u64, digit: u8) -> u64 {
    if number < 1_000_000_000_000_000_000 {
        number * 10 + u64::from(digit.saturating_sub(b'0'))
    } else {
        number
    }
}

impl<'a> Iterator for Numbers<'a> {
    type Item = u64;

    ghost remaining = { λ s. at_most (length s.rest.now) };

    fn next(&mut self) -> Option<u64> {
        let Some(start) = self.rest.iter().position(|b| b.is_ascii_digit()) else {
            // No number is left, and the text is not searched again for one.
            self.rest = &self.rest[..0];
            return None;
        };
        let (first, after) = self.rest[start..].split_first()?;
        let end = after.iter().position(|b| !b.is_ascii_digit());
        let (digits, rest) = after.split_at(end.unwrap_or(after.len()));
        self.rest = rest;
        Some(
            digits
                .iter()
                .fold(with_digit(0, *first), |n, digit| with_digit(n, *digit)),
        )
    }
}

impl<'a> Numbers<'a> {
    // Returns the numbers of a text.
    pub fn of(text: &'a [u8]) -> Numbers<'a> {
        Numbers { rest: text }
    }

    // Reads the next number, or 0 if there is none.
    pub fn number(&mut self) -> u64 {
        self.next().unwrap_or(0)
    }

    // Reads a step from six numbers: kind, client, object, place, clock, value.
    pub fn step(&mut self) -> Step {
        Step {
            kind: byte(self.number()),
            client: byte(self.number()),
            object: byte(self.number()),
            place: byte(self.number()),
            clock: word(self.number()),
            value: self.number(),
        }
    }

    // Goes on at `after`, which stands behind `count` groups of numbers. Stays here for 65,536 groups or more, which no text has room for.
    pub fn pass(&mut self, count: u64, after: Numbers<'a>) {
        if count < 65536 {
            *self = after;
        }
    }
}

// Returns the number as a word, or the largest word if it does not fit.
pub fn word(number: u64) -> u32 {
    u32::try_from(number).unwrap_or(u32::MAX)
}

// Returns the number as a byte, or the largest byte if it does not fit.
pub fn byte(number: u64) -> u8 {
    u8::try_from(number).unwrap_or(u8::MAX)
}
