// Kinds 33, 35, 36, 38 and 43: one operand, at a.
ghost use Rattle.std.specs.Prelude.{ℕ};
ghost use Rattle.rules.specs.Kinds.{power, card, choice};
ghost use Rattle.operations.specs.Good.{SomeGood};
ghost use Rattle.operations.specs.Outcomes.{OneReady, OneDone};
ghost use Rattle.operations.specs.Parts.{side_kind};

use crate::{Lack, Outcome, built};

pub fn power(s: &mut [u64], a: usize, top: usize) -> Result<Outcome, Lack>
    requires { OneReady s.old a top }
    ensures { OneDone power s.old a top s.new result }
{
    if !fitting::is_set(s, a) {
        return Err(Lack::Unlike);
    }
    built(powers::power(s, a, top))
}

// 35 and 36: the left parts of a set of pairs, or (if right) the right parts. A flag and no closure: the contract speaks of it (`side_kind`).
pub fn side(s: &mut [u64], a: usize, top: usize, right: bool) -> Result<Outcome, Lack>
    requires { OneReady s.old a top }
    ensures { OneDone (side_kind right) s.old a top s.new result }
{
    if !fitting::is_relation(s, a) {
        return Err(Lack::Unlike);
    }
    if right {
        return Ok(Outcome::Built(parts::range(s, a, top)));
    }
    Ok(Outcome::Built(parts::domain(s, a, top)))
}

pub fn card(s: &[u64], a: usize) -> Result<Outcome, Lack>
    requires { SomeGood s.now a }
    ensures { (top : ℕ) → OneDone card s.now a top s.now result }
{
    if !fitting::is_set(s, a) {
        return Err(Lack::Unlike);
    }
    let n = arena::low(s[a]);
    Ok(Outcome::Cell(arena::ZERO + n))
}

// The first member is the least, and stays where it is.
pub fn choice(s: &[u64], a: usize) -> Result<Outcome, Lack>
    requires { SomeGood s.now a }
    ensures { (top : ℕ) → OneDone choice s.now a top s.now result }
{
    if !fitting::is_set(s, a) {
        return Err(Lack::Unlike);
    }
    if arena::low(s[a]) == 0 {
        return Err(Lack::NoValue);
    }
    Ok(Outcome::Within(a + 1))
}
