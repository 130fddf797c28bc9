// Values as runs of cells in an arena: where a value ends, the order of two values, copying. Places are numbers (project rule: no heap, fixed
// memory), so no type of value could derive Eq, Ord or Clone: `same`, `compare` and `copy` stand for these. The arena and places in it are
// parameters of their own, here and in the crates above: half of the functions write it, so a struct of them would be made anew for each call.
#![tactic(auto)]

ghost use Rattle.std.specs.Prelude.{◌≡◌, ◌⊎◌, ◌+◌, ◌<◌, ◌≤◌, ◌/◌, ◌%◌, length, get_or};
ghost use Rattle.arena.specs.Code.{SomeAt, EndsAt, Compared, SameAt, Copied, CopyIfReady, CopiedIf, parts_of, ThenNext, SomeRow, ValuesCompared, RowsBegun, RowsCompared};

use std::cmp::Ordering;

// A cell is its tag times CELL, and its payload.
pub const CELL: u64 = 4294967296;

// The tags. They stay numbers: a cell is one u64, ordered as a number.
pub const NUMBER_TAG: u64 = 1;

pub const TRUTH_TAG: u64 = 2;

pub const ELEMENT_TAG: u64 = 3;

pub const PAIR_TAG: u64 = 4;

pub const SET_TAG: u64 = 5;

// The cells of scalars: numbers in excess form (ZERO is that of 0), truths, elements. Payloads are added.
pub const NUMBER: u64 = NUMBER_TAG * CELL;

pub const EXCESS: u64 = 2147483648;

pub const ZERO: u64 = NUMBER + EXCESS;

pub const TRUTH: u64 = TRUTH_TAG * CELL;

pub const ELEMENT: u64 = ELEMENT_TAG * CELL;

// The payload of an element is its given set's number times GIVEN, and its own number.
pub const GIVEN: u64 = 256;

// The cell of a pair. That of a scalar is less.
pub const PAIR: u64 = PAIR_TAG * CELL;

// The cell of the empty set; that of another has the number of its members as payload.
pub const SET: u64 = SET_TAG * CELL;

// The cells of the heaviest value (18).
pub const HEAVIEST: usize = 256;

// The tag of a cell, and its payload (numbers in excess form).
pub fn tag(cell: u64) -> u64
    ensures { result ≡ cell / 4294967296 }
{
    cell / CELL
}

pub fn low(cell: u64) -> u64
    ensures { (result ≡ cell % 4294967296) × (result < 4294967296) }
{
    cell % CELL
}

// How many values follow a cell as its parts or members.
pub fn parts(cell: u64) -> usize
    ensures { (result ≡ parts_of cell) × (result < 4294967296) }
{
    match tag(cell) {
        PAIR_TAG => 2,
        SET_TAG => low(cell) as usize,
        _ => 0,
    }
}

// Where the value that begins at `at` ends.
pub fn end_of(s: &[u64], at: usize) -> usize
    requires { SomeAt s.now at }
    ensures { EndsAt s.now at result }
{
    if s[at] < PAIR {
        return at + 1;
    }
    prefix::form_end(s, at, parts)
}

// Whether the values at a and b are the same. The first ends at `end`.
pub fn same(s: &[u64], a: usize, end: usize, b: usize) -> bool
    requires { SomeAt s.now a × SomeAt s.now b × EndsAt s.now a end }
    ensures { SameAt s.now a b result }
{
    s[b..].starts_with(&s[a..end])
}

// Two rows of values that have been compared: their order, and where they end.
#[derive(Drop)]
pub struct Rows {
    pub order: Ordering,
    pub a: usize,
    pub b: usize,
}

// The order of some values and then that of the next: the first that is a difference decides, or (if last) the last.
fn then_next(last: bool, passed: Ordering, next: Ordering) -> Ordering
    ensures { ThenNext last passed next result }
{
    if last {
        return next.then(passed);
    }
    passed.then(next)
}

// Two values whose own cells differ: these decide.
fn apart(s: &[u64], a: usize, b: usize) -> Rows
    requires { SomeAt s.now a × SomeAt s.now b × (get_or s.now a 0 ≡ get_or s.now b 0 → ⊥) }
    ensures { ValuesCompared s.now a b result }
{
    Rows {
        order: s[a].cmp(&s[b]),
        a: end_of(s, a),
        b: end_of(s, b),
    }
}

// Two values: their own cells, then what stands behind these, the parts of a pair from left to right, the members of a set from the greatest down.
#[cycle(compare_rows_compare_values)]
pub fn compare_values(s: &[u64], a: usize, b: usize) -> Rows
    requires { SomeAt s.now a × SomeAt s.now b }
    ensures { ValuesCompared s.now a b result }
{
    let x = s[a];
    if x != s[b] {
        return apart(s, a, b);
    }
    compare_rows(s, a + 1, b + 1, parts(x), x > PAIR)
}

// n values from a on and n from b on, as far as both are scalars.
fn compare_cells(s: &[u64], a: usize, b: usize, n: usize, last: bool) -> Rows
    requires { SomeRow s.now a n × SomeRow s.now b n }
    ensures { RowsBegun s.now a b n last result }
{
    let mut order = Ordering::Equal;
    for i in 0..n {
        let x = s[a + i];
        let y = s[b + i];
        if x >= PAIR || y >= PAIR {
            return Rows {
                order,
                a: a + i,
                b: b + i,
            };
        }
        order = then_next(last, order, x.cmp(&y));
    }
    Rows {
        order,
        a: a + n,
        b: b + n,
    }
}

// n values from a on and n from b on, in one walk from the first up. Of the members of a set the last difference decides, that of the greatest.
#[cycle(compare_rows_compare_values)]
fn compare_rows(s: &[u64], a: usize, b: usize, n: usize, last: bool) -> Rows
    requires { SomeRow s.now a n × SomeRow s.now b n }
    ensures { RowsCompared s.now a b n last result }
{
    let mut rows = compare_cells(s, a, b, n, last);
    for _ in rows.a - a..n {
        let next = compare_values(s, rows.a, rows.b);
        rows = Rows {
            order: then_next(last, rows.order, next.order),
            a: next.a,
            b: next.b,
        };
    }
    rows
}

// The order of the value at a to that at b, whatever they hold. A function of its own, and not inlined, so that `compare`, whose loop stands in those
// over members, calls none that gives a struct back.
#[inline(never)]
fn compare_whole(s: &[u64], a: usize, b: usize) -> Ordering
    requires { SomeAt s.now a × SomeAt s.now b }
    ensures { Compared s.now a b result }
{
    compare_values(s, a, b).order
}

// The order of the value at a, which ends at `end`, to that at b. As long as no set with members stands in both, the first cells that differ decide.
pub fn compare(s: &[u64], a: usize, end: usize, b: usize) -> Ordering
    requires { SomeAt s.now a × SomeAt s.now b × EndsAt s.now a end }
    ensures { Compared s.now a b result }
{
    for i in 0..end - a {
        let x = s[a + i];
        let y = s[b + i];
        if x != y {
            return x.cmp(&y);
        }
        if x > SET {
            return compare_whole(s, a, b);
        }
    }
    Ordering::Equal
}

// Copies n cells, the first one first: upward to a place behind them, or downward.
pub fn copy_forward(s: &mut [u64], from: usize, n: usize, to: usize)
    requires { (from + n ≤ length s.old) × (to + n ≤ length s.old) × ((from + n ≤ to) ⊎ (to ≤ from)) }
    ensures { Copied s.old from n to s.new }
{
    for i in 0..n {
        s[to + i] = s[from + i];
    }
}

// Copies n cells. The places may overlap. Who knows that they do not, or that the run goes down, takes `copy_forward`: runs are short, and with a
// test at each of them products took half as many instructions again. Not inlined, so that `copy_if` and the loops around it stay small.
#[inline(never)]
pub fn copy(s: &mut [u64], from: usize, n: usize, to: usize)
    requires { (from + n ≤ length s.old) × (to + n ≤ length s.old) }
    ensures { Copied s.old from n to s.new }
{
    if to <= from || from + n <= to {
        copy_forward(s, from, n, to);
    } else {
        s.copy_within(from..from + n, to);
    }
}

// Copies the run from `from` to `end` to `to`, if it is kept, and answers where what has been built ends.
pub fn copy_if(s: &mut [u64], from: usize, end: usize, keep: bool, to: usize) -> usize
    requires { CopyIfReady s.old from end to }
    ensures { CopiedIf s.old from end keep to s.new result }
{
    if !keep {
        return to;
    }
    let n = end - from;
    // Most runs are kept behind where they stand.
    if end <= to {
        copy_forward(s, from, n, to);
    } else {
        copy(s, from, n, to);
    }
    to + n
}
