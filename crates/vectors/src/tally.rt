// Each line counted by its act and by what became of it.
use super::act::Act;
use super::judge::Verdict;
use super::question::NoQuestion;
use std::fmt;

// What became of a line.
#[derive(Clone, Copy, Debug, PartialEq, Eq)]
pub enum Fate {
    Right,
    NotAsked,
    // One that is planted must be found wrong.
    Found,
    PlantedNotAsked,
    // One of these is wrong.
    Missed,
    Differs,
    ChangedByte,
    BlindByte,
    Unreadable,
}

impl Fate {
    const ALL: [Fate; 9] = [
        Fate::Right,
        Fate::NotAsked,
        Fate::Found,
        Fate::PlantedNotAsked,
        Fate::Missed,
        Fate::Differs,
        Fate::ChangedByte,
        Fate::BlindByte,
        Fate::Unreadable,
    ];

    pub fn new(planted: bool, verdict: Result<Verdict, NoQuestion>) -> Fate {
        match verdict {
            Ok(Verdict::Right) if planted => Fate::Missed,
            Ok(Verdict::NotAsked) if planted => Fate::PlantedNotAsked,
            _ if planted => Fate::Found,
            Ok(Verdict::Right) => Fate::Right,
            Ok(Verdict::NotAsked) => Fate::NotAsked,
            Ok(Verdict::Differs) => Fate::Differs,
            Ok(Verdict::ChangedByte) => Fate::ChangedByte,
            Ok(Verdict::BlindByte) => Fate::BlindByte,
            Err(NoQuestion) => Fate::Unreadable,
        }
    }

    pub fn is_wrong(self) -> bool {
        !matches!(
            self,
            Fate::Right | Fate::NotAsked | Fate::Found | Fate::PlantedNotAsked
        )
    }
}

impl fmt::Display for Fate {
    fn fmt<W: fmt::Write>(&self, f: &mut fmt::Formatter<W>) -> fmt::Result {
        f.write_str(match self {
            Fate::Right => "right",
            Fate::NotAsked => "not-asked",
            Fate::Found => "found",
            Fate::PlantedNotAsked => "planted-not-asked",
            Fate::Missed => "missed",
            Fate::Differs => "differs",
            Fate::ChangedByte => "changed-byte",
            Fate::BlindByte => "blind-byte",
            Fate::Unreadable => "unreadable",
        })
    }
}

// How many lines had each fate.
#[derive(Clone, Copy, Default)]
struct Row {
    counts: [u64; 9],
}

impl Row {
    fn count(&mut self, fate: Fate) {
        let n = &mut self.counts[fate as usize];
        *n = n.saturating_add(1);
    }
}

impl fmt::Display for Row {
    fn fmt<W: fmt::Write>(&self, f: &mut fmt::Formatter<W>) -> fmt::Result {
        for (fate, n) in Fate::ALL.iter().zip(&self.counts) {
            write_count(f, fate, *n)?;
        }
        Ok(())
    }
}

// A count that is not 0, behind its name.
fn write_count<W: fmt::Write>(
    f: &mut fmt::Formatter<W>,
    name: impl fmt::Display + Drop,
    n: u64,
) -> fmt::Result {
    if n == 0 {
        return Ok(());
    }
    write!(f, " {name}={n}")
}

// A row for each act, for lines of no act and for all lines, and how many lines there are.
#[derive(Default, Drop)]
pub struct Tally {
    acts: [Row; 13],
    no_act: Row,
    all: Row,
    lines: u64,
}

impl Tally {
    pub fn lines(&self) -> u64 {
        self.lines
    }

    pub fn count(&mut self, act: Option<Act>, fate: Fate) {
        match act {
            Some(act) => self.acts[act as usize].count(fate),
            None => self.no_act.count(fate),
        }
        self.all.count(fate);
        self.lines = self.lines.saturating_add(1);
    }
}

impl fmt::Display for Tally {
    fn fmt<W: fmt::Write>(&self, f: &mut fmt::Formatter<W>) -> fmt::Result {
        f.write_str("by act:")?;
        for (act, row) in Act::ALL.iter().zip(&self.acts) {
            write!(f, "\n{act}{row}")?;
        }
        write!(f, "\nno-act{}\nall{}\nfile", self.no_act, self.all)?;
        write_count(f, "lines", self.lines)
    }
}
