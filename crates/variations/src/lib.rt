// What a source says of a predicate: its keys by position, and the first for it.
#![tactic(auto)]

pub mod sources;

ghost use Rattle.std.specs.Prelude.{◌≡◌};
ghost use Rattle.variations.specs.Answers.{AskedIs};
ghost use Rattle.variations.specs.Mirror.SourceBytes.{key_is, asked_at, first_key};
ghost use Rattle.variations.specs.Mirror.Positions.{KeyIs, FirstIs};

use formula::bytes::byte_at;
use formula::skip::skip;
use keys::Part;
use keys::rows::{Asked, Source};
use keys::table::key_at;

// The predicate that starts at `at`.
pub fn asked_at(t: &[u8], at: usize) -> Asked
    ensures asked_is { AskedIs t.now at result }
    ensures value { result ≡ asked_at t.now at }
{
    let end = skip(t, at);
    Asked {
        code: byte_at(t, at),
        whole: Part { at, end },
    }
}

// Whether the source's key at position k is the predicate asked: the truth value that stands for it.
pub fn key_is(s: &[u8], x: Source, k: usize, t: &[u8], y: Asked) -> Option<bool>
    ensures key_is { KeyIs s.now x k t.now y result }
    ensures value { result ≡ key_is s.now x k t.now y }
{
    let row = key_at(x.first, k);
    (k < x.count && x.has_key(s, row, t, y)).then_some(row.value())
}

// What the source says of the predicate asked: its first key for it.
#[tactic(auto, using(crate::proofs::Laws::firsts), unfolding(crate::specs::Mirror::SourceBytes::first_key))]
pub fn first_key(s: &[u8], x: Source, t: &[u8], y: Asked) -> Option<bool>
    ensures first_is { FirstIs s.now x t.now y result }
    ensures value { result ≡ first_key s.now x t.now y }
{
    for k in 0..x.count {
        if let Some(value) = key_is(s, x, k, t, y) {
            return Some(value);
        }
    }
    None
}
