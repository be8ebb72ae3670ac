// The sequent file, read left to right in one pass.
ghost use Rattle.std.specs.Prelude.{◌≡◌, ◌+◌, ◌<◌, ◌≤◌, length, take, drop, MatchResult};
ghost use Rattle.sequent.specs.ReadFile.{header_at, types_at, predicate_at, to_end, read_sequent};
ghost use Rattle.sequent.specs.Mirror.Opened.{Not, Open};
ghost use Rattle.sequent.specs.Mirror.ReadBytes.{check_of, item_at, with_hypothesis, HypothesesSeen, HypothesesRefused, Opens, Refuses, TypesSeen};

use super::Opened;
use desk::{Hypotheses, View};
use formula::Sort;
use reader::reader::read_formula;
use refusal::{Cause, Refusal, Said};

// The header is asked 1 (length), 2, 3, 4 in that order.
#[tactic(auto, unfolding(crate::specs::ReadFile::header_at))]
fn check_header(s: &[u8]) -> Result<(), Refusal>
    ensures { result ≡ check_of (header_at s.now) }
{
    if s.len() < 8 || 60000 < s.len() {
        return Err(Cause::Length.at(0));
    }
    if !s.starts_with(b"SQT") {
        return Err(Cause::Mark.at(0));
    }
    if s[3] != 1 || s[4] != 0 {
        return Err(Cause::Version.at(3));
    }
    if 64 < s[5] || 64 < s[6] || s[7] != 0 {
        return Err(Cause::Header.at(5));
    }
    Ok(())
}

// The t type bytes after the header.
fn check_types(s: &[u8], t: usize) -> Result<(), Refusal>
    requires { t < 256 }
    ensures { result ≡ check_of (types_at s.now t 8) }
{
    for p in 8..8 + t {
        if s.len() <= p {
            return Err(Cause::Length.at(p));
        }
        if 2 < s[p] {
            return Err(Cause::TypeByte.at(p));
        }
    }
    Ok(())
}

// The predicate at p, with nothing after it.
#[tactic(auto, unfolding(crate::specs::ReadFile::predicate_at, formula::specs::Formula::read_formula))]
pub fn check_last(s: &[u8], types: &[u8], p: usize) -> Result<(), Refusal>
    ensures { result ≡ check_of (to_end s.now (predicate_at s.now types.now p)) }
{
    let end = read_formula(s, types, Sort::Predicate, p)?;
    if end < s.len() {
        return Err(Cause::After.at(end));
    }
    Ok(())
}

// The hypothesis after those that stand: its flag byte and its end; 10 is asked last, at its formula's first byte.
#[tactic(auto, unfolding(crate::specs::Mirror::ReadBytes::item_at), using(crate::proofs::SeenIs::reads))]
fn next_hypothesis(h: Hypotheses, types: &[u8]) -> Result<(u8, usize), Refusal>
    requires { h.view.hypotheses ≤ 64 }
    ensures { result ≡ item_at h.entry types.now }
{
    let s = h.bytes;
    let p = h.view.end;
    if s.len() <= p {
        return Err(Cause::Length.at(p));
    }
    let flag = s[p];
    if 2 < flag {
        return Err(Cause::FlagByte.at(p));
    }
    let end = read_formula(s, types, Sort::Predicate, p + 1)?;
    if h.find(&s[p + 1..end]).is_some() {
        return Err(Cause::Twice.at(p + 1));
    }
    Ok((flag, end))
}

// One more hypothesis, with this flag byte (0, 1 or 2 in a file) and this end.
fn with_hypothesis(v: View, flag: u8, end: usize) -> View
    requires { v.hypotheses < 64 }
    ensures { result ≡ with_hypothesis v flag end }
{
    View {
        hypotheses: v.hypotheses + 1,
        end,
        ..v.with_flag(v.hypotheses, flag == 1, flag == 2)
    }
}

// The h hypotheses after the type bytes; the places get where each starts, and where the last one ends. They are lent, since an
// array answered by value is copied from function to function.
fn hypotheses(s: &[u8], types: &[u8], h: usize, places: &mut [usize; 65]) -> Result<View, Refusal>
    requires types_in_bounds { 8 + length types.now ≤ length s.now }
    requires types_stand { take (length types.now) (drop 8 s.now) ≡ types.now }
    requires h_bound { h ≤ 64 }
    ensures { MatchResult result (λ view. HypothesesSeen s.now types.now h (view, places.new)) (HypothesesRefused s.now types.now h) }
{
    let start = 8 + types.len();
    *places = [start; 65];
    let mut view = View {
        identifiers: types.len(),
        hypotheses: 0,
        end: start,
        hidden: 0,
        selected: 0,
    };
    for i in 0..h {
        let earlier = Hypotheses {
            bytes: s,
            places,
            view,
        };
        let (flag, end) = next_hypothesis(earlier, types)?;
        view = with_hypothesis(view, flag, end);
        places[i + 1] = end;
    }
    Ok(view)
}

// The header and the type bytes after it.
#[tactic(auto, using(crate::proofs::OpenLaws::headers))]
fn types(s: &[u8]) -> Result<&[u8], Refusal>
    ensures { MatchResult result (λ types. TypesSeen s.now types.now) (Refuses s.now) }
{
    check_header(s)?;
    let t = usize::from(s[5]);
    check_types(s, t)?;
    Ok(&s[8..8 + t])
}

// The types, the hypotheses and the goal, with nothing after it.
fn whole(s: &[u8], places: &mut [usize; 65]) -> Result<View, Refusal>
    ensures { MatchResult result (Open s.now places.new) (Refuses s.now) }
{
    let types = types(s)?;
    let view = hypotheses(s, types, usize::from(s[6]), places)?;
    check_last(s, types, view.end)?;
    Ok(view)
}

// Reads a sequent in place.
pub fn open(s: &[u8]) -> Result<Opened<'_>, Said>
    ensures { MatchResult result (Opens s.now) (Not s.now (read_sequent s.now)) }
{
    let mut places = [0; 65];
    let view = whole(s, &mut places).map_err(|x| x.said_in(s.len()))?;
    Ok(Opened {
        bytes: s,
        places,
        view,
    })
}
