// Values built in the arena from others: scalars, singletons, pairs, intervals, products.
#![tactic(auto)]

ghost use Rattle.std.specs.Prelude.{[], ◌∷◌, true, false, ◌≡◌, ◌+◌, ◌*◌, ◌<◌, ◌≤◌, length};
ghost use Rattle.rules.specs.Values.{truth_value};
ghost use Rattle.rules.specs.Operations.{set_of, elements_from};
ghost use Rattle.arena.specs.Code.{SomeSet, SetAt, SomeValue, Made};
ghost use Rattle.products.specs.Growing.{PutsCell, RunPre, PutsRun, Singles, PutsPair, PairPre, PairPut, Intervals, RowPre, Rows, SquarePre, Squares, SmallProducts, SizeIs, product_weight, Multiplies};

// The cells that the heaviest value has behind its first.
const BEHIND_FIRST: usize = arena::HEAVIEST - 1;

// A value of one cell.
pub fn put_cell(s: &mut [u64], top: usize, cell: u64) -> usize
    requires { top + 1 ≤ length s.old }
    ensures { PutsCell s.old top cell s.new result }
{
    s[top] = cell;
    top + 1
}

pub fn singleton(s: &mut [u64], a: usize, top: usize) -> Option<usize>
    requires { SomeValue s.old top a × (top + 514 ≤ length s.old) }
    ensures { Singles s.old a top s.new result }
{
    let n = arena::end_of(s, a) - a;
    if n > BEHIND_FIRST {
        return None;
    }
    arena::copy_forward(s, a, n, top + 1);
    s[top] = arena::SET + 1;
    Some(top + 1 + n)
}

// The pair of the value of n cells at a and the value of m cells at b, behind both.
fn pair_at(s: &mut [u64], a: usize, n: usize, b: usize, m: usize, to: usize) -> usize
    requires { PairPre s.old a n b m to }
    ensures { PairPut s.old a n b m to s.new result }
{
    arena::copy_forward(s, a, n, to + 1);
    arena::copy_forward(s, b, m, to + 1 + n);
    s[to] = arena::PAIR;
    to + 1 + n + m
}

pub fn pair(s: &mut [u64], a: usize, b: usize, top: usize) -> Option<usize>
    requires { SomeValue s.old top a × SomeValue s.old top b × (top + 514 ≤ length s.old) }
    ensures { PutsPair s.old a b top s.new result }
{
    let n = arena::end_of(s, a) - a;
    let m = arena::end_of(s, b) - b;
    if n + m > BEHIND_FIRST {
        return None;
    }
    Some(pair_at(s, a, n, b, m, top))
}

// The set of n scalars whose cells follow one another as numbers.
fn run(s: &mut [u64], cell: u64, n: usize, top: usize) -> usize
    requires { RunPre s.old cell n top }
    ensures { PutsRun s.old cell n top s.new result }
{
    let from = top + 1;
    for i in 0..n {
        s[from + i] = cell + i as u64;
    }
    s[top] = arena::SET + n as u64;
    from + n
}

// The n elements of the given set g.
pub fn elements(s: &mut [u64], g: u64, n: u64, top: usize) -> usize
    requires { (g < 16777216) × (n ≤ 32) × (top + 1 + n ≤ length s.old) }
    ensures { Made top s.old s.new (set_of (elements_from g 0 n)) (Some result) }
{
    run(s, arena::ELEMENT + arena::GIVEN * g, n as usize, top)
}

pub fn booleans(s: &mut [u64], top: usize) -> usize
    requires { top + 3 ≤ length s.old }
    ensures { Made top s.old s.new (set_of (truth_value false ∷ truth_value true ∷ [])) (Some result) }
{
    run(s, arena::TRUTH, 2, top)
}

// The integers from x to y, numbers in excess form.
pub fn interval(s: &mut [u64], x: u64, y: u64, top: usize) -> Option<usize>
    requires { (x < 4294967296) × (y < 4294967296) × (top + 514 ≤ length s.old) }
    ensures { Intervals s.old x y top s.new result }
{
    let n = (y + 1).saturating_sub(x) as usize;
    if n > BEHIND_FIRST {
        return None;
    }
    Some(run(s, arena::NUMBER + x, n, top))
}

// The pairs of the value at v, of k cells, with each of m members from b on. A cursor, as in `rows`: members differ in length.
fn row(s: &mut [u64], v: usize, k: usize, b: usize, m: usize, to: usize) -> usize
    requires { RowPre s.old v k b m to }
    ensures { Rows s.old v k b m to s.new result }
{
    let mut i = b;
    let mut at = to;
    // What is left is counted down, which takes no register for the end.
    for _ in (0..m).rev() {
        let e = arena::end_of(s, i);
        at = pair_at(s, v, k, i, e - i, at);
        i = e;
    }
    at
}

// The pairs of n members from a on with m members from b on. Not inlined into the evaluators, where its values would lie on the stack.
#[inline(never)]
fn rows(s: &mut [u64], a: usize, n: usize, b: usize, m: usize, to: usize) -> usize
    requires { SquarePre s.old a n b m to }
    ensures { Squares s.old a n b m to s.new result }
{
    let mut i = a;
    let mut at = to;
    for _ in 0..n {
        let e = arena::end_of(s, i);
        at = row(s, i, e - i, b, m, at);
        i = e;
    }
    at
}

// The numbers of a set's members and of their cells.
#[derive(Clone, Copy)]
pub struct Size {
    pub members: usize,
    pub cells: usize,
}

pub fn size_of(s: &[u64], a: usize) -> Size
    requires { SetAt s.now a }
    ensures { SizeIs s.now a result }
{
    Size {
        members: arena::low(s[a]) as usize,
        cells: arena::end_of(s, a) - a - 1,
    }
}

// The weight of the product of two sets.
fn product_weight(x: Size, y: Size) -> usize
    requires { SmallProducts x y }
    ensures { result ≡ product_weight x y }
{
    1 + x.members * y.members + y.members * x.cells + x.members * y.cells
}

pub fn product(s: &mut [u64], a: usize, b: usize, top: usize) -> Option<usize>
    requires { SomeSet s.old top a × SomeSet s.old top b × (top + 514 ≤ length s.old) }
    ensures { Multiplies s.old a b top s.new result }
{
    let x = size_of(s, a);
    let y = size_of(s, b);
    if product_weight(x, y) > arena::HEAVIEST {
        return None;
    }
    let end = rows(s, a + 1, x.members, b + 1, y.members, top + 1);
    s[top] = arena::SET + (x.members * y.members) as u64;
    Some(end)
}
