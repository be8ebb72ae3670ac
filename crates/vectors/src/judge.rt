// What was answered, held to the line's own answer, byte by byte.
use super::act::Act;
use super::answer::answer;
use super::question::{Lent, NoQuestion, Question};
use super::tally::Fate;
use super::words::Words;

#[derive(Clone, Copy, Debug, PartialEq, Eq)]
pub enum Verdict {
    Right,
    // The act is not there yet.
    NotAsked,
    Differs,
    // A byte is changed that was to be kept.
    ChangedByte,
    // A byte so changed is not found.
    BlindByte,
}

// The act that a line names, and what becomes of the line. A mark before it says that it is planted.
pub fn judge(line: &[u8], lent: &mut [Lent; 4], out: &mut [u8]) -> (Option<Act>, Fate) {
    let planted = line.strip_prefix(b"!");
    let mut words = Words::new(planted.unwrap_or(line));
    let act = words.next().and_then(|name| Act::try_from(name).ok());
    let verdict = match act {
        Some(act) => judge_act(act, words, lent, out),
        None => Err(NoQuestion),
    };
    (act, Fate::new(planted.is_some(), verdict))
}

// The verdict on the words behind an act's name.
fn judge_act(
    act: Act,
    words: Words<'_>,
    lent: &mut [Lent; 4],
    out: &mut [u8],
) -> Result<Verdict, NoQuestion> {
    if !act.is_there() {
        return Ok(Verdict::NotAsked);
    }
    let question = Question::read(act, words, lent)?;
    match question.room {
        Some(room) => judge_written(act, question.answer, room, lent, out),
        None => Ok(judge_numbers(act, question.answer, lent)),
    }
}

fn judge_numbers(act: Act, said: Words<'_>, lent: &[Lent; 4]) -> Verdict {
    match answer(act, lent, &mut []) {
        Some(reply) if reply.is_said(said, &[]) => Verdict::Right,
        _ => Verdict::Differs,
    }
}

// Asks with the room that the line names, in a buffer that has the pattern.
fn judge_written(
    act: Act,
    said: Words<'_>,
    room: usize,
    lent: &[Lent; 4],
    out: &mut [u8],
) -> Result<Verdict, NoQuestion> {
    for i in 0..out.len() {
        out[i] = pattern_at(i);
    }
    let room = out.get_mut(..room).ok_or(NoQuestion)?;
    match answer(act, lent, room) {
        Some(reply) if reply.is_said(said, out) => Ok(kept(out, reply.written())),
        _ => Ok(Verdict::Differs),
    }
}

// A byte that goes by its place, and is never 0, by which each byte written is seen.
fn pattern_at(i: usize) -> u8 {
    255 - (i % 251) as u8
}

// Whether each byte from `from` on has the pattern.
fn is_kept(out: &[u8], from: usize) -> bool {
    for i in from..out.len() {
        if out[i] != pattern_at(i) {
            return false;
        }
    }
    true
}

// Every byte behind the written ones must be kept; the first of them is then changed, which must be found.
fn kept(out: &mut [u8], written: usize) -> Verdict {
    if !is_kept(out, written) {
        return Verdict::ChangedByte;
    }
    if let Some(b) = out.get_mut(written) {
        *b = 0;
    }
    if is_kept(out, written) {
        return Verdict::BlindByte;
    }
    Verdict::Right
}
