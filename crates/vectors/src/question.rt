// What a line asks: `ACT BUFFER.. ROOM -> ANSWER`.
ghost use Rattle.std.specs.Prelude.{◌≤◌};
ghost use Rattle.vectors.specs.declared.question.TheConstants.{FRONT, SLOT};

use super::act::Act;
use super::words::{Words, byte};

// A line that is no question.
#[derive(Clone, Copy, Debug, PartialEq, Eq)]
pub struct NoQuestion;

// Room for a lent buffer and for the bytes before it.
const SLOT: usize = 70000;

pub const FRONT: usize = 3;

// A lent buffer, where it stands behind three bytes. It is not Copy: its 70,000 bytes are lent down.
#[derive(Drop)]
pub struct Lent {
    bytes: [u8; SLOT],
    end: usize,
    ghost behind_front: { FRONT ≤ end },
    ghost inside: { end ≤ SLOT },
}

impl Lent {
    pub fn new() -> Lent {
        Lent {
            bytes: [0; SLOT],
            end: FRONT,
        }
    }

    pub fn alone(&self) -> &[u8] {
        &self.bytes[FRONT..self.end]
    }

    pub fn behind(&self) -> &[u8] {
        &self.bytes[..self.end]
    }

    // Puts the bytes of a word there: digits in pairs, or `-` for no byte.
    fn put(&mut self, word: &[u8]) -> Result<(), NoQuestion> {
        let digits = match word {
            b"" => return Err(NoQuestion),
            b"-" => &[],
            _ => word,
        };
        let (pairs, []) = digits.as_chunks::<2>() else {
            return Err(NoQuestion);
        };
        let end = FRONT + pairs.len();
        let bytes = self.bytes.get_mut(FRONT..end).ok_or(NoQuestion)?;
        for (b, pair) in bytes.iter_mut().zip(pairs) {
            *b = byte(pair).ok_or(NoQuestion)?;
        }
        self.end = end;
        Ok(())
    }
}

// What stands behind the buffers, which are lent.
#[derive(Clone, Copy)]
pub struct Question<'a> {
    // How many bytes a result may have, where the act writes one.
    pub room: Option<usize>,
    pub answer: Words<'a>,
}

impl<'a> Question<'a> {
    pub fn read(
        act: Act,
        mut words: Words<'a>,
        lent: &mut [Lent; 4],
    ) -> Result<Question<'a>, NoQuestion> {
        for buffer in lent.iter_mut().take(act.lent()) {
            buffer.put(words.next().ok_or(NoQuestion)?)?;
        }
        let room = if act.writes() {
            Some(words.number().ok_or(NoQuestion)?)
        } else {
            None
        };
        if words.next() != Some(b"->") {
            return Err(NoQuestion);
        }
        Ok(Question {
            room,
            answer: words,
        })
    }
}
