// The reader: a list of operands at a time, the levels left falling.
ghost use Rattle.std.specs.Prelude.{◌≡◌, length, ℕ, ◌≤◌};
ghost use Rattle.reader.specs.Mirror.Walk.{end_of};
ghost use Rattle.formula.specs.Formula.{read_formula};

use super::node::Seen;
use super::shape::same_shape;
use super::walk::{Walk, first_mark};
use formula::table::{PAIR, ident_type};
use formula::{LEVELS, LONGEST, Sort};
use refusal::{Cause, Refusal};

// The code of an identifier.
const IDENTIFIER: u8 = 0x20;

// Operands read: where they end, and the mark (as in a Walk) of the first wrong node among them and their parent, or 0.
#[derive(Clone, Copy)]
pub struct Got {
    pub next: usize,
    pub bad: usize,
}

// What is read: the bytes, one for each identifier's type, and the end that the formula's bytes are before.
// The functions beside it take the bytes and the types: tried as methods of this, the reader is slower, by 7 to 15 percent on
// three shapes of `bench`.
#[derive(Clone, Copy)]
pub struct Reader<'a> {
    pub bytes: &'a [u8],
    pub types: &'a [u8],
    pub end: usize,
    ghost inside: { end ≤ length bytes.now },
}

impl<'a> Reader<'a> {
    ghost use Rattle.std.specs.Prelude.{◌≡◌, length, ℕ, ◌<◌, ◌≤◌};
    ghost use Rattle.reader.specs.Mirror.Node.{name_at};
    ghost use Rattle.reader.specs.Mirror.Walk.{unlike, Going, judged, read_from, Stood, Turn};

    // The kind of the identifier at `at`, where one stands that may stand here. Most operands are identifiers, and this reads
    // one without its row.
    #[tactic(auto, unfolding(crate::specs::Mirror::Node::name_at, formula::specs::Mirror::Bytes::byte_at))]
    pub fn name_at(&self, want: usize, at: usize) -> Option<usize>
        requires { at < self.now.end }
        ensures { result ≡ name_at self.now.bytes.now self.now.types.now self.now.end want at }
    {
        let s = self.bytes;
        // Tried as a slice pattern: slower, by 13 to 25 percent on two shapes of `bench`.
        if self.end <= at + 1 || s[at] != IDENTIFIER {
            return None;
        }
        let ty = ident_type(self.types, usize::from(s[at + 1]));
        if want & ty == 0 { None } else { Some(ty) }
    }

    // Whether the next operand, of the type ty, is the second side of = and no pair of the shape of the first.
    #[tactic(auto, unfolding(crate::specs::Mirror::Walk::unlike))]
    fn is_unlike(&self, w: Walk, ty: usize) -> bool
        ensures { result ≡ unlike self.now.bytes.now self.now.types.now w.others w.left ty w.parent w.at }
    {
        w.others == 0
            && w.left == 1
            && ty == PAIR
            && same_shape(self.bytes, self.types, w.parent, w.at, LEVELS).is_none()
    }

    // The mark of the first wrong node so far, the next operand, of the type ty, judged.
    #[tactic(auto, unfolding(crate::specs::Mirror::Walk::judged))]
    fn judge(&self, w: Walk, ty: usize) -> usize
        ensures { result ≡ judged self.now.bytes.now self.now.types.now w ty }
    {
        if w.want & ty == 0 || self.is_unlike(w, ty) {
            return w.parent;
        }
        w.bad
    }

    // The operands of the next operand, which stands and is judged.
    fn below(&self, w: Walk, o: Seen) -> Walk
        requires { Stood self.now.bytes.now self.now.types.now self.now.end w o }
        ensures { Turn self.now.bytes.now self.now.types.now self.now.end w o.ty result }
    {
        w.below(o, self.judge(w, o.ty))
    }

    // Reads the operands that are left. The operands of the last one are read in the same loop, those of another by a call.
    #[cycle(read_below_read_ops)]
    #[tactic(auto, using(crate::proofs::WalkLaws::turns))]
    fn read_ops(&self, from: Walk) -> Result<Got, Refusal>
        requires { Going from }
        ensures { result ≡ read_from self.now.bytes.now self.now.types.now self.now.end from }
    {
        let mut w = from;
        while w.left != 0 {
            if self.end <= w.at {
                return Err(w.refusal(self.bytes, self.types));
            }
            if let Some(name) = self.name_at(w.want, w.at) {
                w = w.next(name, w.at + 2, w.bad);
                continue;
            }
            let o = Seen::at(self.bytes, self.types, w.at);
            if w.refuses(self.types.len(), self.end, o) {
                return Err(w.refusal(self.bytes, self.types));
            }
            let v = self.below(w, o);
            if v.left == 0 {
                w = w.next(o.ty, v.at, v.kept);
                continue;
            }
            if v.level == 0 {
                return Err(v.refusal(self.bytes, self.types));
            }
            if w.left == 1 {
                w = v.keeping(w.kept);
                continue;
            }
            let g = self.read_below(v)?;
            w = w.next(o.ty, g.next, g.bad);
        }
        Ok(Got {
            next: w.at,
            bad: first_mark(w.kept, w.bad),
        })
    }

    // A call of its own: tried with a loop that calls its own function, the reader is slower, by 8 to 20 percent.
    #[cycle(read_below_read_ops)]
    fn read_below(&self, w: Walk) -> Result<Got, Refusal>
        requires { Going w }
        ensures { result ≡ read_from self.now.bytes.now self.now.types.now self.now.end w }
    {
        self.read_ops(w)
    }
}

// The formula's bytes are before this.
#[tactic(auto, unfolding(crate::specs::Mirror::Walk::end_of))]
fn end_of(len: usize, start: usize) -> usize
    ensures value { result ≡ end_of len start }
    ensures upper_bound { result ≤ len }
{
    len.min(start.saturating_add(LONGEST))
}

// Reads the formula of this sort that starts at `start`; `types` has a byte for each identifier.
#[tactic(auto, using(crate::proofs::WholeIs::whole_is))]
pub fn read_formula(s: &[u8], types: &[u8], sort: Sort, start: usize) -> Result<usize, Refusal>
    ensures { result ≡ read_formula s.now types.now sort start }
{
    let reader = Reader {
        bytes: s,
        types,
        end: end_of(s.len(), start),
    };
    let g = reader.read_ops(Walk::whole(sort, start))?;
    if g.bad == 0 {
        return Ok(g.next);
    }
    Err(Cause::Type.at(g.bad - 1))
}
