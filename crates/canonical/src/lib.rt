// Whether a value in the arena is allowed: the members of each set in it rise and share a type (refusal 14).
#![tactic(auto)]

ghost use Rattle.std.specs.Prelude.{◌≡◌, true, ◌+◌, ◌<◌, get_or};
ghost use Rattle.fitting.specs.Agree.{SomeTyped};
ghost use Rattle.canonical.specs.Ordered.{WholeValue};
ghost use Rattle.canonical.specs.Shared.{SomeTypedRow, least_alike, most_alike, MembersFine, ScalarPair, sets_end, Fine};

// The cells of a pair of two scalars.
const PAIR_CELLS: usize = 3;

// Three functions for one promise (`MembersFine`), by what the first member is: scalars and pairs of two scalars have bounds for their cells, which
// need no cursor and no test of types; one function over all three would only begin with the same choice (`members_fine`).

// Whether n values from `at` on rise and share a type, value by value. A cursor: values differ in length.
fn values_fine(s: &[u64], at: usize, n: usize) -> bool
    requires { SomeTypedRow s.now at n × (0 < n) }
    ensures { MembersFine s.now at n result }
{
    let end = arena::end_of(s, at);
    // A value with no empty set in it has one type only: it stands for all that share it.
    let one = fitting::full(s, at, end);
    let mut i = at;
    let mut e = end;
    for k in 1..n {
        if arena::compare(s, i, e, e).is_ge() {
            return false;
        }
        let m = if one { 1 } else { k };
        if !fitting::against(s, e, at, m) {
            return false;
        }
        i = e;
        e = arena::end_of(s, i);
    }
    true
}

// The least and the greatest cell of a scalar that shares a type with the scalar of the cell x: elements are of one given set.
fn alike(x: u64) -> (u64, u64)
    ensures { (result.0 ≡ least_alike x) × (result.1 ≡ most_alike x) }
{
    let cells = if arena::tag(x) == arena::ELEMENT_TAG {
        arena::GIVEN
    } else {
        arena::CELL
    };
    let least = x / cells * cells;
    (least, least + (cells - 1))
}

// Whether n values from `at` on, the first a scalar, rise and share a type: they are scalars, one cell each, up to the greatest of the type.
fn cells_fine(s: &[u64], at: usize, n: usize) -> bool
    requires { SomeTypedRow s.now at n × (0 < n) × (get_or s.now at 0 < 17179869184) }
    ensures { MembersFine s.now at n result }
{
    let (_, most) = alike(s[at]);
    for i in at + 1..at + n {
        let y = s[i];
        if y <= s[i - 1] || y > most {
            return false;
        }
    }
    true
}

// Whether the value at `at` is a pair of two scalars.
fn scalar_pair(s: &[u64], at: usize) -> bool
    requires { SomeTyped s.now at }
    ensures { result ≡ true → ScalarPair s.now at }
{
    s[at] == arena::PAIR && s[at + 1].max(s[at + 2]) < arena::PAIR
}

// Whether n values from `at` on, the first a pair of two scalars, rise and share a type: they are such pairs, three cells each, whose scalars
// are within the bounds of the first's types. The left ones do not fall, so that their least needs no test.
fn pairs_fine(s: &[u64], at: usize, n: usize) -> bool
    requires { SomeTypedRow s.now at n × (0 < n) × ScalarPair s.now at }
    ensures { MembersFine s.now at n result }
{
    let mut a = s[at + 1];
    let mut b = s[at + 2];
    let (_, left_most) = alike(a);
    let (right_least, right_most) = alike(b);
    // A pair a turn, with its cells a and b, which the next turn looks back at: its place by the turn's number would be no plainer.
    let mut i = at;
    for _ in 1..n {
        i += PAIR_CELLS;
        if s[i] != arena::PAIR {
            return false;
        }
        let c = s[i + 1];
        let d = s[i + 2];
        if (c, d) <= (a, b) {
            return false;
        }
        if c > left_most || d < right_least || d > right_most {
            return false;
        }
        a = c;
        b = d;
    }
    true
}

// Whether n values from `at` on rise and share a type, as the members of a set do.
fn members_fine(s: &[u64], at: usize, n: usize) -> bool
    requires { SomeTypedRow s.now at n }
    ensures { MembersFine s.now at n result }
{
    if n == 0 {
        true
    } else if s[at] < arena::PAIR {
        cells_fine(s, at, n)
    } else if scalar_pair(s, at) {
        pairs_fine(s, at, n)
    } else {
        values_fine(s, at, n)
    }
}

// Where the cells of sets end in the value from `at` to `end`, whose first cell is x: a set whose members are one cell each has no other set
// that is to be tested.
fn sets_end(x: u64, at: usize, end: usize) -> usize
    requires { at < end }
    ensures { result ≡ sets_end x at end }
{
    if x >= arena::SET && arena::low(x) as usize + 1 == end - at {
        at + 1
    } else {
        end
    }
}

// Whether the sets in the value from `at` to `end` are in order and it has a type: so are the members of each set, from the innermost outward.
pub fn fine(s: &[u64], at: usize, end: usize) -> bool
    requires { WholeValue s.now at end }
    ensures { Fine s.now at result }
{
    for i in (at..sets_end(s[at], at, end)).rev() {
        let x = s[i];
        if x >= arena::SET && !members_fine(s, i + 1, arena::low(x) as usize) {
            return false;
        }
    }
    true
}
