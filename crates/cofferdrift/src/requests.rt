// A request: its words parsed, its files read, the proved function asked, its result stored.
ghost use Rattle.std.specs.Prelude.{◌≤◌, length, IfOk};

use super::files;
use super::words::{Answer, Fault, Misuse};
use buffers::Done;
use refusal::{Cause, Said};
use std::env::{Env, FillError};
use std::rt::Runtime;

// Room for a lent buffer. The longest list has 65,537 bytes: of a longer file one byte more says all.
const LENT: usize = 65538;

// Room for a result.
const SEQUENT: usize = 60000;

// An act on the hypotheses of a sequent; `vectors` has an enum of the thirteen that a line may name.
#[derive(Clone, Copy)]
enum Act {
    Select,
    Deselect,
    Hide,
    Show,
    Modify,
    Forward,
    Rewrite,
}

impl Act {
    // How many files are lent with it.
    fn lent(self) -> usize
        ensures { result ≤ 3 }
    {
        match self {
            Act::Select | Act::Deselect | Act::Hide | Act::Show => 1,
            Act::Forward => 2,
            Act::Modify | Act::Rewrite => 3,
        }
    }

    // The proved function that does it: the acts are lent one to three buffers, so a match is plainer than closures.
    fn apply(self, s: &[u8], [a, b, c]: [&[u8]; 3], out: &mut [u8]) -> Result<Done, Said> {
        match self {
            Act::Select => acts::select(s, a, out),
            Act::Deselect => acts::deselect(s, a, out),
            Act::Hide => acts::hide(s, a, out),
            Act::Show => acts::show(s, a, out),
            Act::Modify => acts::modify(s, a, b, c, out),
            Act::Forward => acts::forward(s, a, b, out),
            Act::Rewrite => acts::rewrite(s, a, b, c, out),
        }
    }
}

#[derive(Clone, Copy)]
enum Request {
    Help,
    Read,
    Change(Act),
}

impl TryFrom<&[u8]> for Request {
    type Error = Misuse;

    fn try_from(word: &[u8]) -> Result<Request, Misuse> {
        match word {
            b"help" => Ok(Request::Help),
            b"read" => Ok(Request::Read),
            b"select" => Ok(Request::Change(Act::Select)),
            b"deselect" => Ok(Request::Change(Act::Deselect)),
            b"hide" => Ok(Request::Change(Act::Hide)),
            b"show" => Ok(Request::Change(Act::Show)),
            b"modify" => Ok(Request::Change(Act::Modify)),
            b"forward" => Ok(Request::Change(Act::Forward)),
            b"rewrite" => Ok(Request::Change(Act::Rewrite)),
            _ => Err(Misuse::UnknownAct),
        }
    }
}

impl Request {
    // How many arguments it takes, the program's name and its own word among them.
    fn arguments(self) -> usize {
        match self {
            Request::Help => 2,
            Request::Read => 3,
            Request::Change(act) => 4 + act.lent(),
        }
    }
}

// How many arguments the program was started with, its own name among them; 8 stands for more than any act takes,
// since all that is asked is whether it is the right number.
fn arg_count(rt: &impl Env) -> usize {
    (0..8)
        .take_while(|&i| !matches!(rt.arg(i, &mut [0u8; 1]), Err(FillError::NotPresent)))
        .count()
}

// The request that argument 1 names.
fn requested(rt: &impl Env) -> Result<Request, Misuse> {
    let mut word = [0u8; 4096];
    let len = rt.arg(1, &mut word).map_err(|_| Misuse::NoAct)?;
    let request = Request::try_from(&word[..len])?;
    if arg_count(rt) == request.arguments() {
        Ok(request)
    } else {
        Err(Misuse::ArgumentCount)
    }
}

// The sequent that argument 2 names. One longer than its room has over 60,000 bytes: its length is refused.
fn load_sequent<'a>(rt: &impl Runtime, room: &'a mut [u8]) -> Result<&'a [u8], Fault>
    ensures { IfOk result (λ s. length s.now ≤ length room.old) }
{
    let mut file = files::open(rt, 2).map_err(|_| Misuse::SequentUnreadable)?;
    let s = files::fill(&mut file, room);
    let more = files::count_rest(&mut file);
    if more == 0 {
        return Ok(s);
    }
    Err(
        Cause::Length
            .at(0)
            .said_in(s.len().saturating_add(more))
            .into(),
    )
}

// The i-th lent file; nothing where the act takes fewer.
fn load_lent<'a>(
    rt: &impl Runtime,
    act: Act,
    i: usize,
    room: &'a mut [u8],
) -> Result<&'a [u8], Fault>
    ensures { IfOk result (λ s. length s.now ≤ length room.old) }
{
    if i >= act.lent() {
        return Ok(&[]);
    }
    let mut file = files::open(rt, 3 + i).map_err(|_| Misuse::LentUnreadable)?;
    let s = files::fill(&mut file, room);
    // What is left is read too: who writes into a pipe writes all of it.
    let _ = files::count_rest(&mut file);
    Ok(s)
}

// Not inlined, as `change`: the rooms of a request take no stack of another.
#[inline(never)]
fn read(rt: &impl Runtime) -> Result<Answer, Fault> {
    let mut room = [0u8; LENT];
    let s = load_sequent(rt, &mut room)?;
    Ok(Answer::Read(sequent::read(s)?))
}

#[inline(never)]
fn change(rt: &impl Runtime, act: Act) -> Result<Answer, Fault> {
    let mut room = [0u8; LENT];
    let s = load_sequent(rt, &mut room)?;
    let (mut first, mut second, mut third) = ([0u8; LENT], [0u8; LENT], [0u8; LENT]);
    let all = [
        load_lent(rt, act, 0, &mut first)?,
        load_lent(rt, act, 1, &mut second)?,
        load_lent(rt, act, 2, &mut third)?,
    ];
    let mut out = [0u8; SEQUENT];
    let Done { changed, len } = act.apply(s, all, &mut out)?;
    let len = len.min(out.len());
    files::store(rt, 3 + act.lent(), &out[..len]).map_err(|_| Misuse::OutputUnwritable)?;
    Ok(if changed {
        Answer::Changed
    } else {
        Answer::Unchanged
    })
}

pub fn run(rt: &impl Runtime) -> Result<Answer, Fault> {
    match requested(rt)? {
        Request::Help => Ok(Answer::Help),
        Request::Read => read(rt),
        Request::Change(act) => change(rt, act),
    }
}
