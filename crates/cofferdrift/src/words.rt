// What the program says.
use refusal::Said;
use sequent::Counts;
use std::fmt;

const HELP: &str = "\
cofferdrift read FILE
cofferdrift select|deselect|hide|show FILE FORMULA OUT
cofferdrift modify FILE ADDED UNSELECTED GOAL OUT
cofferdrift forward FILE SOURCES INFERRED OUT
cofferdrift rewrite FILE SOURCES INFERRED HIDE OUT
cofferdrift help";

// What is said of a request that is done.
#[derive(Clone, Copy)]
pub enum Answer {
    Help,
    Read(Counts),
    Changed,
    Unchanged,
}

impl fmt::Display for Answer {
    fn fmt<W: fmt::Write>(&self, f: &mut fmt::Formatter<W>) -> fmt::Result {
        match self {
            Answer::Help => write!(f, "{HELP}"),
            Answer::Read(n) => write!(
                f,
                "ok hidden {} selected {} visible {}",
                n.hidden, n.selected, n.visible
            ),
            Answer::Changed => write!(f, "ok changed"),
            Answer::Unchanged => write!(f, "ok unchanged"),
        }
    }
}

// What keeps a request from being done.
#[derive(Clone, Copy)]
pub enum Misuse {
    NoAct,
    UnknownAct,
    ArgumentCount,
    SequentUnreadable,
    LentUnreadable,
    OutputUnwritable,
}

impl fmt::Display for Misuse {
    fn fmt<W: fmt::Write>(&self, f: &mut fmt::Formatter<W>) -> fmt::Result {
        f.write_str(match self {
            Misuse::NoAct => "no act named; `cofferdrift help` lists them",
            Misuse::UnknownAct => "unknown act; `cofferdrift help` lists them",
            Misuse::ArgumentCount => "wrong number of arguments; `cofferdrift help` lists them",
            Misuse::SequentUnreadable => "the sequent file cannot be read",
            Misuse::LentUnreadable => "a lent file cannot be read",
            Misuse::OutputUnwritable => "the output file cannot be written",
        })
    }
}

// Why a request is not done.
#[derive(Clone, Copy)]
pub enum Fault {
    Misuse(Misuse),
    Refused(Said),
}

impl From<Misuse> for Fault {
    fn from(misuse: Misuse) -> Fault {
        Fault::Misuse(misuse)
    }
}

impl From<Said> for Fault {
    fn from(said: Said) -> Fault {
        Fault::Refused(said)
    }
}

impl fmt::Display for Fault {
    fn fmt<W: fmt::Write>(&self, f: &mut fmt::Formatter<W>) -> fmt::Result {
        match self {
            Fault::Misuse(misuse) => write!(f, "misuse: {misuse}"),
            Fault::Refused(Said { number, place }) => {
                let meaning = meaning(*number);
                write!(f, "refused {number} at {place}: {meaning}")
            }
        }
    }
}

// The words of document 01 for a refusal's number: the number is what an act answers.
fn meaning(number: usize) -> &'static str {
    match number {
        1 => "too short or too long, or the bytes end inside an item",
        2 => "the file does not start with its mark",
        3 => "another version than 1",
        4 => "too many identifiers or hypotheses, or byte 7 is not 0",
        5 => "unknown type byte",
        6 => "unknown flag byte",
        7 => {
            "unknown code or code of the other sort, count out of range, or no such identifier or bound variable"
        }
        8 => "operands of the wrong type",
        9 => "a formula too deep or too long",
        10 => "a hypothesis stands there twice",
        11 => "bytes left over at the end",
        14 => "the result is too large or does not fit the buffer",
        18 => "a formula to leave unselected is not among those added",
        _ => "no meaning",
    }
}
