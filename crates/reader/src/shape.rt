// Whether two expressions have one type.
ghost use Rattle.std.specs.Prelude.{◌≡◌};
ghost use Rattle.reader.specs.Mirror.Shape.{is_pair, leaf_ends, shape};

use formula::bytes::small_at;
use formula::skip::{skip, type_at};
use formula::table::{PAIR, Row};

// Where two expressions of one type end.
#[derive(Clone, Copy)]
pub struct Ends {
    pub a: usize,
    pub b: usize,
}

// Only ↦ makes pairs.
#[tactic(auto, unfolding(crate::specs::Mirror::Shape::is_pair, formula::specs::Mirror::Bytes::byte_at))]
fn is_pair(s: &[u8], i: usize) -> bool
    ensures { result ≡ is_pair s.now i }
{
    Row::of(small_at(s, i)).kind() == PAIR
}

// The same of two that are not both pairs.
#[tactic(auto, unfolding(crate::specs::Mirror::Shape::leaf_ends))]
fn leaf_ends(s: &[u8], types: &[u8], a: usize, b: usize) -> Option<Ends>
    ensures { result ≡ leaf_ends s.now types.now a b }
{
    if type_at(s, types, a) != type_at(s, types, b) {
        return None;
    }
    Some(Ends {
        a: skip(s, a),
        b: skip(s, b),
    })
}

// Where the expressions at a and b end, if their types are one.
#[tactic(auto, using(crate::proofs::ShapeLaws::shapes))]
pub fn same_shape(s: &[u8], types: &[u8], a: usize, b: usize, level: usize) -> Option<Ends>
    ensures { result ≡ shape level s.now types.now a b }
{
    if level == 0 || !is_pair(s, a) || !is_pair(s, b) {
        return leaf_ends(s, types, a, b);
    }
    let left = same_shape(s, types, a + 1, b + 1, level - 1)?;
    same_shape(s, types, left.a, left.b, level - 1)
}
