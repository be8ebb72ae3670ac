// Where the reader stands in a list of operands.
ghost use Rattle.std.specs.Prelude.{◌≡◌};
ghost use Rattle.reader.specs.Mirror.Walk.{first_mark};

use super::node::Seen;
use formula::bytes::small_at;
use formula::table::Row;
use formula::{LEVELS, Sort};
use refusal::{Cause, Refusal};

// A mark is 1 + a place, or 0 for none: with an Option in its place the reader is slower, by 13 to 28 percent.
// `Going`, and that its place is below 2 ^ 63, are asked for and no ghost fields: a Walk with no level left is made too, and
// found to be refused.
#[derive(Clone, Copy)]
pub struct Walk {
    // the place of the next operand, and how many are left
    pub at: usize,
    pub left: usize,
    // the kinds that the next operand and the others may have; 0: that of the first
    pub want: usize,
    pub others: usize,
    // the mark of their parent
    pub parent: usize,
    // how many variables are bound, and how many levels are left
    pub bound: usize,
    pub level: usize,
    // the marks of the first wrong node of this list, and of what was read on the way to it
    pub bad: usize,
    pub kept: usize,
}

impl Walk {
    ghost use Rattle.std.specs.Prelude.{◌≡◌, ℕ, ◌+◌, ◌*◌, ◌^◌, ◌<◌, ◌≤◌, length};
    ghost use Rattle.reader.specs.Mirror.Node.{refused_here, refusal_row, refusal_at};
    ghost use Rattle.reader.specs.Mirror.Walk.{next_want, Going, next_operand, operands_of, keeping, whole_at};

    // A whole formula as one operand, of a parent that it always suits.
    #[tactic(auto, unfolding(crate::specs::Mirror::Walk::whole_at))]
    pub(crate) fn whole(sort: Sort, start: usize) -> Walk
        ensures value { result ≡ whole_at sort start }
        ensures going { Going result }
    {
        let root = Row::root(sort);
        Walk {
            at: start,
            left: 1,
            want: root.first_kinds(),
            others: root.other_kinds(),
            parent: 1,
            bound: 0,
            level: LEVELS,
            bad: 0,
            kept: 0,
        }
    }

    // Whether the next operand is refused where a level is left; t identifiers.
    #[tactic(auto, unfolding(crate::specs::Mirror::Node::refused_here))]
    pub fn refuses(self, t: usize, end: usize, o: Seen) -> bool
        requires { self.at < 2 ^ 63 }
        ensures { result ≡ refused_here t end self.bound self.want self.at o.row.0 o.byte }
    {
        end <= self.at + o.row.own_bytes()
            || self.want & o.row.sort_kinds() == 0
            || o.row.is_out(o.byte, t, self.bound)
    }

    // The refusal of the next operand, with this row and the byte n after its code, of which it is known that something is
    // wrong: the lower number first, and what is left in the end is 9.
    #[tactic(auto, using(crate::proofs::NodeLaws::number_offset), unfolding(crate::specs::Mirror::Node::refusal_row))]
    fn refusal_by(self, len: usize, t: usize, row: Row, n: u8) -> Refusal
        requires { self.at < len }
        ensures { result ≡ refusal_row len t self.bound self.level self.want self.at row.0 n }
    {
        let at = self.at;
        let cause = if len - at <= row.own_bytes() {
            Cause::Length
        } else if self.want & row.sort_kinds() == 0 {
            Cause::Code
        } else if row.is_out(n, t, self.bound) {
            row.number_cause()
        } else if self.level == 0 {
            Cause::Deep
        } else {
            Cause::Long
        };
        cause.at(at)
    }

    // The same, of the bytes.
    #[tactic(auto, unfolding(crate::specs::Mirror::Node::refusal_at, formula::specs::Mirror::Bytes::byte_at))]
    pub fn refusal(self, s: &[u8], types: &[u8]) -> Refusal
        ensures { result ≡ refusal_at s.now (length types.now) self.bound self.level self.want self.at }
    {
        let at = self.at;
        if s.len() <= at {
            return Cause::Length.at(at);
        }
        let row = Row::of(small_at(s, at));
        self.refusal_by(s.len(), types.len(), row, row.own_byte(s, at + 1))
    }

    // After the next operand, of the type ty: the one at `next`.
    #[tactic(auto, unfolding(crate::specs::Mirror::Walk::next_operand, crate::specs::Mirror::Walk::next_want))]
    pub(crate) fn next(self, ty: usize, next: usize, bad: usize) -> Walk
        requires { 0 < self.left }
        ensures { result ≡ next_operand self ty next bad }
    {
        Walk {
            at: next,
            left: self.left - 1,
            want: if self.others == 0 { ty } else { self.others },
            bad,
            ..self
        }
    }

    // The operands of the next operand, seen to be o.
    #[tactic(auto, unfolding(crate::specs::Mirror::Walk::operands_of))]
    pub(crate) fn below(self, o: Seen, kept: usize) -> Walk
        requires going { Going self }
        requires at_bound { self.at < 2 ^ 63 }
        ensures value { result ≡ operands_of self o.row.0 o.byte kept }
        ensures left_bound { result.left < 256 }
        ensures bound_limit { result.bound ≤ self.bound + 255 }
    {
        Walk {
            at: self.at + o.row.own_bytes() + 1,
            left: o.row.count_of(o.byte),
            want: o.row.first_kinds(),
            others: o.row.other_kinds(),
            parent: self.at + 1,
            bound: self.bound + usize::from(o.row.binds_of(o.byte)),
            level: self.level - 1,
            bad: 0,
            kept,
        }
    }

    // The same operands, a mark found before them kept.
    #[tactic(auto, unfolding(crate::specs::Mirror::Walk::keeping))]
    pub(crate) fn keeping(self, kept: usize) -> Walk
        ensures { result ≡ keeping kept self }
    {
        Walk {
            kept: first_mark(kept, self.kept),
            ..self
        }
    }
}

// The first of two marks.
#[tactic(auto, unfolding(crate::specs::Mirror::Walk::first_mark))]
pub(crate) fn first_mark(a: usize, b: usize) -> usize
    ensures { result ≡ first_mark a b }
{
    if a == 0 { b } else { a }
}
