// A source: stripped, its sides, the conditions it meets, and its rows.
ghost use Rattle.std.specs.Prelude.{◌≡◌, true};
ghost use Rattle.formula.specs.Mirror.Bytes.{byte_at};
ghost use Rattle.keys.specs.Mirror.PackedKeys.{shape_number, group_number};
ghost use Rattle.variations.specs.Mirror.SourceBytes.{turned_round, sides_at, literal_at, facts_at, member_shape, shape_of, shape_is, relational, lone_number, source_with, related_by, lone_by, source_by, source_at};
ghost use Rattle.variations.specs.Mirror.Positions.{SourceIs};

use formula::bytes::{byte_at, small_at};
use formula::skip::{skip, type_at};
use keys::Part;
use keys::facts::{Facts, Literal};
use keys::rows::{Sides, Source, is_zero};
use keys::strip::strip_at;
use keys::table::key_at;

// Node codes: bytes of document 01, no enum, since any byte of a buffer is asked by them.
const TOP: usize = 0x01;

const BOTTOM: usize = 0x02;

const EQ: usize = 0x10;

const LT: usize = 0x11;

const LE: usize = 0x12;

const GT: usize = 0x13;

const GE: usize = 0x14;

const IN: usize = 0x15;

const SUB: usize = 0x16;

const SUBE: usize = 0x17;

const LITERAL: u8 = 0x22;

const NAT: usize = 0x24;

const NAT1: usize = 0x25;

// Groups of rows in the table, by their places in it: the shapes of a true source, those of a false one, any other predicate
// true, false, and none.
const SHAPES: usize = 8;

const ITSELF_TRUE: usize = 16;

const ITSELF_FALSE: usize = 17;

const NOTHING: usize = 18;

// The shapes of relations, in the order of their groups.
#[derive(Clone, Copy, PartialEq, Eq)]
pub enum Shape {
    Equal,
    Less,
    LessEqual,
    InSet,
    InNat,
    InNat1,
    Subset,
    SubsetEqual,
}

// > and ≥.
#[tactic(auto, unfolding(crate::specs::Mirror::SourceBytes::turned_round))]
fn turned_round(c: usize) -> bool
    ensures { result ≡ turned_round c }
{
    matches!(c, GT | GE)
}

// The sides of the relation at w; l≥r is treated as r≤l, l>r as r<l.
#[tactic(auto, using(crate::proofs::Laws::relation_fits), unfolding(crate::specs::Mirror::SourceBytes::sides_at))]
fn sides_at(s: &[u8], w: Part) -> Sides
    requires { relational (byte_at s.now w.at) ≡ true }
    ensures { result ≡ sides_at s.now w }
{
    let from = w.at + 1;
    let mid = skip(s, from);
    let near = Part { at: from, end: mid };
    let far = Part { at: mid, ..w };
    let (left, right) = if turned_round(byte_at(s, w.at)) {
        (far, near)
    } else {
        (near, far)
    };
    Sides { left, right }
}

// Which literal a side is; the last of its bytes has the sign.
#[tactic(auto, unfolding(crate::specs::Mirror::SourceBytes::literal_at))]
fn literal_at(s: &[u8], a: Part) -> Option<Literal>
    ensures { result ≡ literal_at s.now a }
{
    if small_at(s, a.at) != LITERAL {
        None
    } else if is_zero(s, a) {
        Some(Literal::Zero)
    } else if small_at(s, a.end.saturating_sub(1)) < 0x80 {
        Some(Literal::Positive)
    } else {
        Some(Literal::Negative)
    }
}

// What conditions ask of the sides.
#[tactic(auto, unfolding(crate::specs::Mirror::SourceBytes::facts_at))]
fn facts_at(s: &[u8], types: &[u8], z: Sides) -> Facts
    ensures { result ≡ facts_at s.now types.now z }
{
    Facts {
        kind: type_at(s, types, z.right.at),
        left: literal_at(s, z.left),
        right: literal_at(s, z.right),
    }
}

// ∈ goes by its right side: a set, ℕ or ℕ1.
#[tactic(auto, unfolding(crate::specs::Mirror::SourceBytes::member_shape))]
fn member_shape(right: usize) -> Shape
    ensures { result ≡ member_shape right }
{
    match right {
        NAT => Shape::InNat,
        NAT1 => Shape::InNat1,
        _ => Shape::InSet,
    }
}

// = < ≤ > ≥ ∈ ⊂ ⊆.
#[tactic(auto, unfolding(crate::specs::Mirror::SourceBytes::relational))]
fn is_relational(c: usize) -> bool
    ensures { result ≡ relational c }
{
    matches!(c, EQ..=SUBE)
}

// A relation's shape, by its code and that of its right side: > and ≥ count as < and ≤.
#[tactic(auto, unfolding(crate::specs::Mirror::SourceBytes::shape_of))]
fn shape_of(c: usize, right: usize) -> Shape
    ensures { result ≡ shape_of c right }
{
    match c {
        IN => member_shape(right),
        EQ => Shape::Equal,
        LT | GT => Shape::Less,
        LE | GE => Shape::LessEqual,
        SUB => Shape::Subset,
        _ => Shape::SubsetEqual,
    }
}

// The group of a relation's rows.
#[tactic(auto, unfolding(keys::specs::Mirror::PackedKeys::group_number))]
fn group_number(value: bool, shape: Shape) -> usize
    ensures { result ≡ group_number value (shape_number (shape_is shape)) }
{
    let n = shape as usize;
    if value { n } else { n + SHAPES }
}

// The group of any other predicate: itself, or nothing for a literal.
#[tactic(auto, unfolding(crate::specs::Mirror::SourceBytes::lone_number))]
fn lone_number(value: bool, c: usize) -> usize
    ensures { result ≡ lone_number value c }
{
    match c {
        TOP | BOTTOM => NOTHING,
        _ if value => ITSELF_TRUE,
        _ => ITSELF_FALSE,
    }
}

// The source with the rows of the group g.
#[tactic(auto, unfolding(crate::specs::Mirror::SourceBytes::source_with))]
fn source_with(g: usize, whole: Part, sides: Sides, facts: Facts) -> Source
    ensures { result ≡ source_with g whole sides facts }
{
    let group = key_at(0, g);
    Source {
        first: group.first(),
        count: group.count(),
        whole,
        sides,
        facts,
    }
}

// The source with the relation at w.
#[tactic(auto, unfolding(crate::specs::Mirror::SourceBytes::related_by))]
fn related(s: &[u8], types: &[u8], w: Part, value: bool) -> Source
    requires { relational (byte_at s.now w.at) ≡ true }
    ensures { result ≡ related_by s.now types.now w value (sides_at s.now w) }
{
    let z = sides_at(s, w);
    let shape = shape_of(byte_at(s, w.at), byte_at(s, z.right.at));
    source_with(group_number(value, shape), w, z, facts_at(s, types, z))
}

// The source with any other predicate at w. It has no sides: its rows ask for none, and the clause `value` has them empty.
#[tactic(auto, unfolding(crate::specs::Mirror::SourceBytes::lone_by))]
fn lone(s: &[u8], w: Part, value: bool) -> Source
    ensures { result ≡ lone_by s.now w value }
{
    let none = Part { at: 0, end: 0 };
    let sides = Sides {
        left: none,
        right: none,
    };
    let facts = Facts {
        kind: 0,
        left: None,
        right: None,
    };
    source_with(lone_number(value, byte_at(s, w.at)), w, sides, facts)
}

// The source with the predicate at w, which has no ¬; buffer, types and part go on as `source_at` has them from its caller.
#[tactic(auto, unfolding(crate::specs::Mirror::SourceBytes::source_by))]
fn source_by(s: &[u8], types: &[u8], w: Part, value: bool) -> Source
    ensures { result ≡ source_by s.now types.now w value }
{
    if is_relational(byte_at(s, w.at)) {
        related(s, types, w, value)
    } else {
        lone(s, w, value)
    }
}

// The source with the predicate at w in s; hypotheses start true, goals false.
pub fn source_at(s: &[u8], types: &[u8], w: Part, starts: bool) -> Source
    ensures source_is { SourceIs s.now types.now w starts result }
    ensures value { result ≡ source_at s.now types.now w starts }
{
    let bare = strip_at(s, w.at, starts);
    let predicate = Part { at: bare.at, ..w };
    source_by(s, types, predicate, bare.value)
}
