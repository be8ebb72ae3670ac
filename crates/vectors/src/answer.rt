// What the acts answer to the buffers that a line lends.
use super::act::Act;
use super::question::{FRONT, Lent};
use super::words::{Words, is_hex};
use buffers::Done;
use formula::Sort;
use formula::equal::same_range;
use reader::outcome_of;
use reader::reader::read_formula;
use refusal::Said;
use sequent::Counts;

#[derive(Clone, Copy, PartialEq, Eq)]
pub enum Reply {
    Refused(Said),
    Number(usize),
    Counts(Counts),
    Written(Done),
}

impl From<Result<Counts, Said>> for Reply {
    fn from(read: Result<Counts, Said>) -> Reply {
        read.map_or_else(Reply::Refused, Reply::Counts)
    }
}

impl From<Result<Done, Said>> for Reply {
    fn from(done: Result<Done, Said>) -> Reply {
        done.map_or_else(Reply::Refused, Reply::Written)
    }
}

impl Reply {
    // How many bytes it writes.
    pub fn written(self) -> usize {
        match self {
            Reply::Written(done) => done.len,
            _ => 0,
        }
    }

    // Whether the words say this with the bytes written, and no more.
    pub fn is_said(self, mut words: Words<'_>, out: &[u8]) -> bool {
        let verb = words.next();
        let is_ok = verb == Some(b"ok");
        let is_said = match self {
            Reply::Refused(said) => {
                verb == Some(b"refuse")
                    && words.number() == Some(said.number)
                    && words.number() == Some(said.place)
            }
            Reply::Number(n) => is_ok && words.number() == Some(n),
            Reply::Counts(n) => {
                is_ok
                    && words.number() == Some(n.hidden)
                    && words.number() == Some(n.selected)
                    && words.number() == Some(n.visible)
            }
            Reply::Written(done) => {
                is_ok
                    && words.number() == Some(usize::from(done.changed))
                    && words
                        .next()
                        .zip(out.get(..done.len))
                        .is_some_and(|(word, bytes)| is_hex(word, bytes))
            }
        };
        is_said && words.next().is_none()
    }
}

// What the act answers; none where it is not there yet, or where a place changes its answer.
// A match and no table of functions: the acts are lent one to four buffers, and not all of them write.
pub fn answer(act: Act, lent: &[Lent; 4], out: &mut [u8]) -> Option<Reply> {
    let [s, a, b, c] = lent.each_ref().map(Lent::alone);
    match act {
        Act::Formula => of_formula(Sort::Predicate, lent),
        Act::Expression => of_formula(Sort::Expression, lent),
        Act::Equal => Some(of_equal(a, lent[2].behind())),
        Act::Read => Some(sequent::read(s).into()),
        Act::Select => Some(acts::select(s, a, out).into()),
        Act::Deselect => Some(acts::deselect(s, a, out).into()),
        Act::Hide => Some(acts::hide(s, a, out).into()),
        Act::Show => Some(acts::show(s, a, out).into()),
        Act::Modify => Some(acts::modify(s, a, b, c, out).into()),
        Act::Forward => Some(acts::forward(s, a, b, out).into()),
        Act::Rewrite => Some(acts::rewrite(s, a, b, c, out).into()),
        Act::Genmp | Act::Onepoint => None,
    }
}

// A formula is asked alone, and behind three bytes: another answer there is no answer.
fn of_formula(sort: Sort, [types, x, ..]: &[Lent; 4]) -> Option<Reply> {
    let reply = reading(x.alone(), types.alone(), sort, 0);
    if reply == reading(x.behind(), types.alone(), sort, FRONT) {
        reply
    } else {
        None
    }
}

// What is said of the formula that starts at `start`, its places counted from there.
fn reading(s: &[u8], types: &[u8], sort: Sort, start: usize) -> Option<Reply> {
    match outcome_of(s.len(), read_formula(s, types, sort, start)) {
        Ok(end) => Some(Reply::Number(end.checked_sub(start)?)),
        Err(said) => Some(Reply::Refused(Said {
            place: said.place.checked_sub(start)?,
            ..said
        })),
    }
}

// Whether two formulas are equal, the right one behind three bytes.
fn of_equal(x: &[u8], y: &[u8]) -> Reply {
    Reply::Number(usize::from(same_range(x, 0, x.len(), y, FRONT, y.len())))
}
