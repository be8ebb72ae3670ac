// The acts that a line may name; cofferdrift has an enum of the seven that it offers.
ghost use Rattle.std.specs.Prelude.{◌≤◌};

use std::fmt;

#[derive(Clone, Copy, Debug, PartialEq, Eq)]
pub enum Act {
    Formula,
    Expression,
    Equal,
    Read,
    Select,
    Deselect,
    Hide,
    Show,
    Modify,
    Forward,
    Rewrite,
    Genmp,
    Onepoint,
}

// A word that names no act.
#[derive(Clone, Copy, Debug, PartialEq, Eq)]
pub struct NoAct;

impl Act {
    pub const ALL: [Act; 13] = [
        Act::Formula,
        Act::Expression,
        Act::Equal,
        Act::Read,
        Act::Select,
        Act::Deselect,
        Act::Hide,
        Act::Show,
        Act::Modify,
        Act::Forward,
        Act::Rewrite,
        Act::Genmp,
        Act::Onepoint,
    ];

    fn name(self) -> &'static str {
        match self {
            Act::Formula => "formula",
            Act::Expression => "expression",
            Act::Equal => "equal",
            Act::Read => "read",
            Act::Select => "select",
            Act::Deselect => "deselect",
            Act::Hide => "hide",
            Act::Show => "show",
            Act::Modify => "modify",
            Act::Forward => "forward",
            Act::Rewrite => "rewrite",
            Act::Genmp => "genmp",
            Act::Onepoint => "onepoint",
        }
    }

    // The last two are not there yet.
    pub fn is_there(self) -> bool {
        !matches!(self, Act::Genmp | Act::Onepoint)
    }

    // How many buffers it is lent.
    pub fn lent(self) -> usize
        ensures { result ≤ 4 }
    {
        match self {
            Act::Read => 1,
            Act::Equal | Act::Forward => 3,
            Act::Modify | Act::Rewrite => 4,
            _ => 2,
        }
    }

    // Whether it writes a sequent, so that a line names a room for it.
    pub fn writes(self) -> bool {
        !matches!(
            self,
            Act::Formula | Act::Expression | Act::Equal | Act::Read
        )
    }
}

impl TryFrom<&[u8]> for Act {
    type Error = NoAct;

    fn try_from(word: &[u8]) -> Result<Act, NoAct> {
        Act::ALL
            .iter()
            .copied()
            .find(|act| act.name().as_bytes() == word)
            .ok_or(NoAct)
    }
}

impl fmt::Display for Act {
    fn fmt<W: fmt::Write>(&self, f: &mut fmt::Formatter<W>) -> fmt::Result {
        f.write_str(self.name())
    }
}
