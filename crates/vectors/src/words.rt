// The words of a line, each ended by a single space, and what a word stands for.
ghost use Rattle.std.specs.Prelude.{◌<◌, IfSome};

#[derive(Clone, Copy, Drop)]
pub struct Words<'a> {
    // None once the last word is taken.
    rest: Option<&'a [u8]>,
}

impl<'a> Words<'a> {
    pub fn new(line: &'a [u8]) -> Words<'a> {
        Words { rest: Some(line) }
    }

    // The next word as a number.
    pub fn number(&mut self) -> Option<usize> {
        decimal(self.next()?)
    }
}

impl<'a> Iterator for Words<'a> {
    type Item = &'a [u8];

    fn next(&mut self) -> Option<&'a [u8]> {
        let rest = self.rest?;
        match rest.iter().position(|b| *b == b' ') {
            Some(end) => {
                self.rest = Some(&rest[end + 1..]);
                Some(&rest[..end])
            }
            None => {
                self.rest = None;
                Some(rest)
            }
        }
    }
}

// The number of a decimal word, with no sign, and no 0 in front of another digit.
fn decimal(word: &[u8]) -> Option<usize> {
    match word {
        [b'0'] | [b'1'..=b'9', ..] => str::from_utf8(word).ok()?.parse().ok(),
        _ => None,
    }
}

// The value of a digit, hexadecimal in lower case: the library's `to_digit` takes capitals too.
fn digit(c: u8) -> Option<u8>
    ensures { IfSome result (λ d. d < 16) }
{
    match c {
        b'0'..=b'9' => Some(c - b'0'),
        b'a'..=b'f' => Some(c - b'a' + 10),
        _ => None,
    }
}

// The byte of two hexadecimal digits.
pub fn byte(pair: &[u8; 2]) -> Option<u8> {
    let [high, low] = *pair;
    Some(digit(high)? * 16 + digit(low)?)
}

// Whether a word is the hexadecimal digits of these bytes.
pub fn is_hex(word: &[u8], bytes: &[u8]) -> bool {
    let (pairs, []) = word.as_chunks::<2>() else {
        return false;
    };
    pairs.iter().map(byte).eq(bytes.iter().copied().map(Some))
}
