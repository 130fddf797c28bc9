// Relations in the arena: whether one is a function, and application.
#![tactic(auto)]

ghost use Rattle.std.specs.Prelude.{◌+◌, ◌<◌, true, ◌≡◌, length};
ghost use Rattle.arena.specs.Code.{SomeValue, SomeRelation};
ghost use Rattle.functions.specs.Pairs.{SomePairs, FunctionAt, Applies, SomeFlat, FlatFunctionAt, FlatAt, Relation, PairSought, IsFunction, KnownFunction};

use sets::Places;

// The cells of a pair of two values of one cell each.
const FLAT_PAIR: usize = 3;

// The n pairs of the relation at f. If flat, each is of two values of one cell each.
#[derive(Clone, Copy)]
struct Pairs {
    f: usize,
    n: usize,
    flat: bool,
}

// Whether no two of n pairs from `at` on share a first part. They rise by first parts, so that neighbours decide. A cursor: pairs differ in
// length.
fn is_function(s: &[u64], at: usize, n: usize) -> bool
    requires { SomePairs s.now at n }
    ensures { FunctionAt s.now at n result }
{
    let mut i = at;
    for _ in 1..n {
        let right = arena::end_of(s, i + 1);
        let next = arena::end_of(s, right);
        if arena::same(s, i + 1, right, next + 1) {
            return false;
        }
        i = next;
    }
    true
}

// Whether each member of the relation at f is a pair of two values of one cell each. The pairs share a type, so that the first one
// decides.
fn of_flat_pairs(s: &[u64], f: usize) -> bool
    requires { SomeRelation s.now (length s.now) f }
    ensures { result ≡ true → FlatAt s.now f }
{
    if arena::low(s[f]) == 0 {
        return true;
    }
    s[f + 2] < arena::PAIR && s[f + 3] < arena::PAIR
}

// `is_function` for such pairs, at places that need no walk: a function of its own, since it reads cells and calls nothing.
fn flat_function(s: &[u64], at: usize, n: usize) -> bool
    requires { SomeFlat s.now at n }
    ensures { FlatFunctionAt s.now at n result }
{
    for k in 1..n {
        let next = at + FLAT_PAIR * k + 1;
        if s[next - FLAT_PAIR] == s[next] {
            return false;
        }
    }
    true
}

// The pairs of the relation at f.
fn pairs_of(s: &[u64], f: usize) -> Pairs
    requires { SomeRelation s.now (length s.now) f }
    ensures { (result.f ≡ f) × Relation s.now result.f result.n result.flat }
{
    Pairs {
        f,
        n: arena::low(s[f]) as usize,
        flat: of_flat_pairs(s, f),
    }
}

// Where the pair stands whose first part is the value at e.
fn pair_with(s: &[u64], p: Pairs, e: usize) -> Option<usize>
    requires { SomeValue s.now (length s.now) e × Relation s.now p.f p.n p.flat }
    ensures { PairSought s.now p.f e result }
{
    let at = p.f + 1;
    if p.flat {
        let firsts = Places {
            at: at + 1,
            step: FLAT_PAIR,
            n: p.n,
        };
        let k = sets::find(s, firsts, s[e])?;
        return Some(at + FLAT_PAIR * k);
    }
    sets::seek(s, at, p.n, e, true)
}

// Whether the relation is a function, where that is not known.
fn function_at(s: &[u64], p: Pairs, known: bool) -> bool
    requires { Relation s.now p.f p.n p.flat × KnownFunction s.now p.f known }
    ensures { IsFunction s.now p.f result }
{
    if known {
        return true;
    }
    if p.flat {
        return flat_function(s, p.f + 1, p.n);
    }
    is_function(s, p.f + 1, p.n)
}

// Application: where the second part stands that goes with the value at e; none also where two pairs of f share a first part. Whether f is
// a function is asked where e is found, and where it is not known.
pub fn image(s: &[u64], f: usize, e: usize, known: bool) -> Option<usize>
    requires { SomeValue s.now (length s.now) e × SomeRelation s.now (length s.now) f × KnownFunction s.now f known }
    ensures { Applies s.now f e result }
{
    let p = pairs_of(s, f);
    let i = pair_with(s, p, e)?;
    if function_at(s, p, known) {
        return Some(arena::end_of(s, i + 1));
    }
    None
}

// Whether the relation at f is seen to be a function without much work: its pairs are flat, and no two share a first part.
pub fn flat_mapping(s: &[u64], f: usize) -> bool
    requires { SomeRelation s.now (length s.now) f }
    ensures { KnownFunction s.now f result }
{
    let p = pairs_of(s, f);
    if !p.flat {
        return false;
    }
    function_at(s, p, false)
}
