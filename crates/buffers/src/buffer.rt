// Formulas and lists lent with an act.
ghost use Rattle.std.specs.Prelude.{◌<◌, ◌≤◌, length, MatchResult};
ghost use Rattle.buffers.specs.Lent.{lent_predicate, lent_list};
ghost use Rattle.buffers.specs.Mirror.Buffers.{IsLent, FormulasSeen, FormulasRefused, Lists, ListRefused};
ghost use Rattle.sequent.specs.Mirror.Opened.{Not};

use desk::List;
use formula::Sort;
use reader::reader::read_formula;
use refusal::{Cause, Refusal, Said};
use sequent::file::check_last;

// One predicate, the whole buffer.
pub fn lent_predicate(b: &[u8], types: &[u8]) -> Result<(), Said>
    ensures { MatchResult result (λ _. IsLent types.now b.now) (Not b.now (lent_predicate types.now b.now)) }
{
    check_last(b, types, 0).map_err(|x| x.said_in(b.len()))
}

// The n formulas after the count.
fn formulas<'a>(b: &'a [u8], types: &[u8], n: usize) -> Result<List<'a>, Refusal>
    requires b_nonempty { 0 < length b.now }
    requires n_bound { n ≤ 64 }
    ensures { MatchResult result (FormulasSeen types.now b.now n) (FormulasRefused types.now b.now n) }
{
    let mut starts = [1; 65];
    let mut p = 1;
    for j in 0..n {
        p = read_formula(b, types, Sort::Predicate, p)?;
        starts[j + 1] = p;
    }
    Ok(List {
        bytes: b,
        starts,
        count: n,
    })
}

// A list of at most `most` formulas, with nothing after it.
#[tactic(auto, unfolding(crate::specs::Lent::lent_list))]
fn list<'a>(b: &'a [u8], types: &[u8], most: usize) -> Result<List<'a>, Refusal>
    requires { most ≤ 64 }
    ensures { MatchResult result (Lists types.now most b.now) (ListRefused types.now most b.now) }
{
    if b.is_empty() {
        return Err(Cause::Length.at(0));
    }
    let n = usize::from(b[0]);
    if most < n {
        return Err(Cause::Count.at(0));
    }
    let list = formulas(b, types, n)?;
    let end = list.starts[n];
    if end < b.len() {
        return Err(Cause::After.at(end));
    }
    Ok(list)
}

// A list of at most `most` formulas, the whole buffer.
pub fn lent_list<'a>(b: &'a [u8], types: &[u8], most: usize) -> Result<List<'a>, Said>
    requires { most ≤ 64 }
    ensures { MatchResult result (Lists types.now most b.now) (Not b.now (lent_list types.now most b.now)) }
{
    list(b, types, most).map_err(|x| x.said_in(b.len()))
}
