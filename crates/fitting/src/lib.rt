// Refusal 15 as tests on values of the arena, and values against types.
#![tactic(auto)]

ghost use Rattle.std.specs.Prelude.{[], ◌∷◌, ◌≡◌, ◌+◌, ◌≤◌, ◌<◌, length};
ghost use Rattle.rules.specs.Types.{whole};
ghost use Rattle.rules.specs.Rules.{t̂, û, P̂, ◌×̂◌, numᵖ};
ghost use Rattle.arena.specs.Code.{SomeAt};
ghost use Rattle.fitting.specs.Types.{Decides, type_parts, SomeType, TypeEnds, atom_is, ValuesAndType, OfType, AllOfType};
ghost use Rattle.fitting.specs.Tests.{FitOne, FitTwo, Both, PairsAndOne, AgreedLefts};
ghost use Rattle.fitting.specs.Agree.{NoEmpty, SomeTyped, SetHere, Few, Members, atoms_alike, PairOrSet, OneAndRun, RunAndRun, Agreed, AgreedWith, AgreedAll};

// The codes of types in a sheet: of POW, of a product, and of the first given set. They stay numbers (C interface: they are the sheet's bytes).
pub const POWER: u8 = 3;

pub const PRODUCT: u8 = 4;

const FIRST_GIVEN: u64 = 16;

// Whether no cell from `at` to `end` is that of an empty set.
pub fn full(s: &[u64], at: usize, end: usize) -> bool
    requires { (at ≤ end) × (end ≤ length s.now) }
    ensures { Decides result (NoEmpty s.now at end) }
{
    !s[at..end].contains(&arena::SET)
}

// 1 where the value at `at`, the first of n, has one type only; otherwise n.
fn few(s: &[u64], at: usize, n: usize) -> usize
    requires { 0 < n → SomeTyped s.now at }
    ensures { Few s.now at n result }
{
    if n > 0 && (s[at] < arena::PAIR || full(s, at, arena::end_of(s, at))) {
        1
    } else {
        n
    }
}

// How many of the first members of the set at `a` stand for all of them.
fn members(s: &[u64], a: usize) -> usize
    requires { SetHere s.now a }
    ensures { Members s.now a result }
{
    few(s, a + 1, arena::low(s[a]) as usize)
}

// Whether two cells, the first that of a scalar, are of one type: they have one tag, and elements are of one given set.
fn atoms_alike(x: u64, y: u64) -> bool
    ensures { result ≡ atoms_alike x y }
{
    if arena::tag(x) == arena::ELEMENT_TAG {
        x / arena::GIVEN == y / arena::GIVEN
    } else {
        arena::tag(x) == arena::tag(y)
    }
}

// Whether the values at a and b share a type.
#[cycle(against_agree_each_meet)]
pub fn agree(s: &[u64], a: usize, b: usize) -> bool
    requires { Both s.now a b }
    ensures { Agreed s.now a b result }
{
    let x = s[a];
    // Scalars need no further call.
    if x < arena::PAIR {
        return atoms_alike(x, s[b]);
    }
    meet(s, a, b)
}

// So of two values, the first a pair or a set.
#[cycle(against_agree_each_meet)]
fn meet(s: &[u64], a: usize, b: usize) -> bool
    requires { Both s.now a b × PairOrSet s.now a }
    ensures { Agreed s.now a b result }
{
    let t = arena::tag(s[a]);
    if t != arena::tag(s[b]) {
        return false;
    }
    let c = a + 1;
    let d = b + 1;
    if t == arena::SET_TAG {
        let n = members(s, a);
        let m = members(s, b);
        return if n == 1 {
            against(s, c, d, m)
        } else {
            each(s, c, n, d, m)
        };
    }
    agree(s, c, d) && agree(s, arena::end_of(s, c), arena::end_of(s, d))
}

// Whether the value at a shares a type with the m values from b on.
#[cycle(against_agree_each_meet)]
pub fn against(s: &[u64], a: usize, b: usize, m: usize) -> bool
    requires { OneAndRun s.now a b m }
    ensures { AgreedWith s.now a b m result }
{
    let mut j = b;
    for left in (0..m).rev() {
        if !agree(s, a, j) {
            return false;
        }
        // Most often one value stands for all: its end is not needed.
        if left == 0 {
            return true;
        }
        j = arena::end_of(s, j);
    }
    true
}

// Whether the n values from a on share a type with the m values from b on.
#[cycle(against_agree_each_meet)]
fn each(s: &[u64], a: usize, n: usize, b: usize, m: usize) -> bool
    requires { RunAndRun s.now a n b m }
    ensures { AgreedAll s.now a n b m result }
{
    let mut i = a;
    for _ in 0..n {
        if !against(s, i, b, m) {
            return false;
        }
        i = arena::end_of(s, i);
    }
    true
}

// The tests of refusal 15, each by the types that a rule asks of its operands: P(t).
pub fn is_set(s: &[u64], a: usize) -> bool
    requires { SomeTyped s.now a }
    ensures { FitOne (P̂ t̂ ∷ []) s.now a result }
{
    arena::tag(s[a]) == arena::SET_TAG
}

// P(t × u)
pub fn is_relation(s: &[u64], a: usize) -> bool
    requires { SomeTyped s.now a }
    ensures { FitOne (P̂ (t̂ ×̂ û) ∷ []) s.now a result }
{
    let x = s[a];
    arena::tag(x) == arena::SET_TAG
        && (arena::low(x) == 0 || arena::tag(s[a + 1]) == arena::PAIR_TAG)
}

// t and t
pub fn alike(s: &[u64], a: usize, b: usize) -> bool
    requires { Both s.now a b }
    ensures { FitTwo (t̂ ∷ t̂ ∷ []) s.now a b result }
{
    agree(s, a, b)
}

// t and P(t)
pub fn belongs(s: &[u64], a: usize, b: usize) -> bool
    requires { Both s.now a b }
    ensures { FitTwo (t̂ ∷ P̂ t̂ ∷ []) s.now a b result }
{
    is_set(s, b) && against(s, a, b + 1, members(s, b))
}

// P(t) and P(t)
pub fn alike_sets(s: &[u64], a: usize, b: usize) -> bool
    requires { Both s.now a b }
    ensures { FitTwo (P̂ t̂ ∷ P̂ t̂ ∷ []) s.now a b result }
{
    is_set(s, a) && agree(s, a, b)
}

// P(t) and P(u)
pub fn sets(s: &[u64], a: usize, b: usize) -> bool
    requires { Both s.now a b }
    ensures { FitTwo (P̂ t̂ ∷ P̂ û ∷ []) s.now a b result }
{
    is_set(s, a) && is_set(s, b)
}

// numbers
pub fn numbers(s: &[u64], a: usize, b: usize) -> bool
    requires { Both s.now a b }
    ensures { FitTwo (numᵖ whole ∷ numᵖ whole ∷ []) s.now a b result }
{
    arena::tag(s[a]) == arena::NUMBER_TAG && arena::tag(s[b]) == arena::NUMBER_TAG
}

// Whether the left parts of the n pairs from a on share a type with the value at b. `against` for values is its like: a parameter for how far
// behind a member's place it is compared would be no plainer, and a third meaning of `against`.
fn lefts(s: &[u64], a: usize, n: usize, b: usize) -> bool
    requires { PairsAndOne s.now a n b }
    ensures { AgreedLefts s.now a n b result }
{
    let mut i = a;
    for left in (0..n).rev() {
        if !agree(s, i + 1, b) {
            return false;
        }
        // Most often the first pair stands for all: its end is not needed.
        if left == 0 {
            return true;
        }
        i = arena::end_of(s, i);
    }
    true
}

// P(t × u) and t
pub fn applies(s: &[u64], a: usize, b: usize) -> bool
    requires { Both s.now a b }
    ensures { FitTwo (P̂ (t̂ ×̂ û) ∷ t̂ ∷ []) s.now a b result }
{
    if !is_relation(s, a) {
        return false;
    }
    let n = arena::low(s[a]) as usize;
    let first = a + 1;
    let k = few(s, first + 1, n);
    lefts(s, first, k, b)
}

// How many types follow a code as its parts.
pub fn type_parts(c: u8) -> usize
    ensures { result ≡ type_parts c }
{
    match c {
        POWER => 1,
        PRODUCT => 2,
        _ => 0,
    }
}

// Where the type that begins at `from` ends.
fn type_end(row: &[u8], from: usize) -> usize
    requires { SomeType row.now from }
    ensures { TypeEnds row.now from result }
{
    prefix::form_end(row, from, type_parts)
}

// Whether a cell, neither a pair's nor a set's, has the type without parts with this code.
fn atom_is(x: u64, c: u8) -> bool
    ensures { result ≡ atom_is x c }
{
    match arena::tag(x) {
        arena::ELEMENT_TAG => arena::low(x) / arena::GIVEN + FIRST_GIVEN == u64::from(c),
        t => t == u64::from(c),
    }
}

// Whether the value at `at` has the type whose prefix codes begin at `from`.
#[cycle(all_of_type_has_type)]
pub fn has_type(s: &[u64], at: usize, row: &[u8], from: usize) -> bool
    requires { SomeAt s.now at × SomeType row.now from }
    ensures { OfType s.now at row.now from result }
{
    let x = s[at];
    let c = row[from];
    match arena::tag(x) {
        arena::SET_TAG => c == POWER
            && all_of_type(s, at + 1, arena::low(x) as usize, row, from + 1),
        arena::PAIR_TAG => {
            let left = at + 1;
            let code = from + 1;
            c == PRODUCT
                && (has_type(s, left, row, code)
                    && has_type(s, arena::end_of(s, left), row, type_end(row, code)))
        }
        _ => atom_is(x, c),
    }
}

// Whether the n values from `at` on have the type at `from`. Its like, `each`, asks another test of each value; a closure for the test would be no
// plainer, since each calls back the function that calls it.
#[cycle(all_of_type_has_type)]
fn all_of_type(s: &[u64], at: usize, n: usize, row: &[u8], from: usize) -> bool
    requires { ValuesAndType s.now at n row.now from }
    ensures { AllOfType s.now at n row.now from result }
{
    let mut i = at;
    for _ in 0..n {
        if !has_type(s, i, row, from) {
            return false;
        }
        i = arena::end_of(s, i);
    }
    true
}
