// Kinds 29 to 32, 37 and 39 to 41: two operands, at a and b.
ghost use Rattle.std.specs.Prelude.{ℕ, ◌<◌};
ghost use Rattle.rules.specs.Kinds.{product, apply, interval};
ghost use Rattle.functions.specs.Pairs.{KnownFunction};
ghost use Rattle.operations.specs.Outcomes.{SomeOperands, TwoReady, TwoDone};
ghost use Rattle.operations.specs.Parts.{MergeDone, sum_kind, NumberDone};

use crate::{Lack, Outcome, built};
use sets::Keeps;

// 29 to 31: the members of both sets that are to be kept.
pub fn merge(s: &mut [u64], a: usize, b: usize, top: usize, keeps: Keeps) -> Result<Outcome, Lack>
    requires { TwoReady s.old a b top }
    ensures { MergeDone keeps.left keeps.both keeps.right s.old a b top s.new result }
{
    if !fitting::alike_sets(s, a, b) {
        return Err(Lack::Unlike);
    }
    let pass = merging::merge(s, a, b, top, keeps);
    built(pass.end)
}

pub fn product(s: &mut [u64], a: usize, b: usize, top: usize) -> Result<Outcome, Lack>
    requires { TwoReady s.old a b top }
    ensures { TwoDone product s.old a b top s.new result }
{
    if !fitting::sets(s, a, b) {
        return Err(Lack::Unlike);
    }
    built(products::product(s, a, b, top))
}

// The image stays where it is, within the function.
pub fn apply(s: &[u64], a: usize, b: usize, known: bool) -> Result<Outcome, Lack>
    requires { SomeOperands s.now a b × KnownFunction s.now a known }
    ensures { (top : ℕ) → TwoDone apply s.now a b top s.now result }
{
    if !fitting::applies(s, a, b) {
        return Err(Lack::Unlike);
    }
    let at = functions::image(s, a, b, known).ok_or(Lack::NoValue)?;
    Ok(Outcome::Within(at))
}

// The integer x − 2^32, which has 32 bits where x is from 2^31 to 2^31 + 2^32 − 1 (17).
fn number(x: u64) -> Result<Outcome, Lack>
    requires { x < 8589934592 }
    ensures { NumberDone x result }
{
    match x.checked_sub(arena::EXCESS) {
        Some(n) if n < arena::CELL => Ok(Outcome::Cell(arena::NUMBER + n)),
        _ => Err(Lack::Wide),
    }
}

// 39 and 40: the sum of two integers, or (if minus) their difference. A flag and no closure: the contract speaks of it (`sum_kind`).
pub fn sum(s: &[u64], a: usize, b: usize, minus: bool) -> Result<Outcome, Lack>
    requires { SomeOperands s.now a b }
    ensures { (top : ℕ) → TwoDone (sum_kind minus) s.now a b top s.now result }
{
    if !fitting::numbers(s, a, b) {
        return Err(Lack::Unlike);
    }
    let x = arena::low(s[a]);
    let y = arena::low(s[b]);
    if minus {
        return number(x + arena::CELL - y);
    }
    number(x + y)
}

pub fn interval(s: &mut [u64], a: usize, b: usize, top: usize) -> Result<Outcome, Lack>
    requires { TwoReady s.old a b top }
    ensures { TwoDone interval s.old a b top s.new result }
{
    if !fitting::numbers(s, a, b) {
        return Err(Lack::Unlike);
    }
    let x = arena::low(s[a]);
    let y = arena::low(s[b]);
    built(products::interval(s, x, y, top))
}
