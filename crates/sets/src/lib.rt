// Sets in the arena, whose members rise: membership and inclusion.
#![tactic(auto)]

ghost use Rattle.std.specs.Prelude.{◌≡◌, ◌+◌, ◌*◌, ◌<◌, true, length, get_or};
ghost use Rattle.arena.specs.Code.{EndsAt, SomeSet, SetAt, SomeValue};
ghost use Rattle.sets.specs.Fronts.{SeekPre, Sought, Contains, Includes, TwoFronts, TurnAt, TwoRuns, RunIn};
ghost use Rattle.sets.specs.Rows.{Row, LowerBound, Found, OfCells, SomeFine, TwoRows};

use std::cmp::Ordering;

// A set is small beside one with more than FEW times its members: a search for each member is quicker than a walk over both.
const FEW: usize = 8;

// The places of a row of cells: n from `at` on, every step-th one.
#[derive(Clone, Copy)]
pub struct Places {
    pub at: usize,
    pub step: usize,
    pub n: usize,
}

impl Places {
    fn cell(self, s: &[u64], k: usize) -> u64
        requires { self.at + self.step * k < length s.now }
        ensures { result ≡ get_or s.now (self.at + self.step * k) 0 }
    {
        s[self.at + self.step * k]
    }
}

// What is left of two sets: m members from a on and n from b on.
#[derive(Clone, Copy)]
pub struct Fronts {
    pub a: usize,
    pub m: usize,
    pub b: usize,
    pub n: usize,
}

// Which members of two sets a walk keeps: those that are only in the left set, in both, only in the right set.
#[derive(Clone, Copy, PartialEq)]
pub struct Keeps {
    pub left: bool,
    pub both: bool,
    pub right: bool,
}

pub const UNION: Keeps = Keeps {
    left: true,
    both: true,
    right: true,
};

pub const INTERSECTION: Keeps = Keeps {
    left: false,
    both: true,
    right: false,
};

pub const DIFFERENCE: Keeps = Keeps {
    left: true,
    both: false,
    right: false,
};

// The members of the right set.
const RIGHT: Keeps = Keeps {
    left: false,
    both: true,
    right: true,
};

// A turn of a walk over two sets: the first of their members stands between `from` and `end` and is kept or not; `rest` is what is left then.
#[derive(Drop)]
pub struct Turn {
    pub from: usize,
    pub end: usize,
    pub keep: bool,
    pub rest: Fronts,
}

// The first cell of a row that is not below x; n where all are. The cells do not fall. By hand: one search serves both steps, and std's
// `partition_point` searches neighbours only.
pub fn lower_bound(s: &[u64], row: Places, x: u64) -> usize
    requires { Row s.now row.at row.step row.n }
    ensures { LowerBound s.now row.at row.step row.n x result }
{
    let mut from: usize = 0;
    let mut left = row.n;
    while left > 0 {
        let half = left / 2;
        let middle = from + half;
        if row.cell(s, middle) < x {
            from = middle + 1;
            left = left - half - 1;
        } else {
            left = half;
        }
    }
    from
}

// Which cell of a row is x. The cells do not fall. They often follow one another with no gap: x is looked for first where it stands then.
pub fn find(s: &[u64], row: Places, x: u64) -> Option<usize>
    requires { Row s.now row.at row.step row.n }
    ensures { Found s.now row.at row.step row.n x result }
{
    if row.n == 0 {
        return None;
    }
    let first = s[row.at];
    if x < first {
        return None;
    }
    let guess = x - first;
    if guess < row.n as u64 && row.cell(s, guess as usize) == x {
        return Some(guess as usize);
    }
    let k = lower_bound(s, row, x);
    if k < row.n && row.cell(s, k) == x {
        return Some(k);
    }
    None
}

// Whether each member of the set at a is one cell. The members share a type, so that the first one decides.
pub fn of_cells(s: &[u64], a: usize) -> bool
    requires { SetAt s.now a }
    ensures { OfCells s.now a result }
{
    if arena::low(s[a]) == 0 {
        return true;
    }
    s[a + 1] < arena::PAIR
}

// Where the value at a ends. A set whose members are one cell each needs no walk.
pub fn value_end(s: &[u64], a: usize) -> usize
    requires { SomeFine s.now a }
    ensures { EndsAt s.now a result }
{
    if s[a] >= arena::SET && of_cells(s, a) {
        return a + 1 + arena::low(s[a]) as usize;
    }
    arena::end_of(s, a)
}

// Where the first of n members from `at` on stands that is the value at e, or (if first) whose first part is. A cursor: members differ in length.
// A flag and no closure: the clause speaks of it (`Sought`).
pub fn seek(s: &[u64], at: usize, n: usize, e: usize, first: bool) -> Option<usize>
    requires { SeekPre s.now at n e first }
    ensures { Sought s.now at n e first result }
{
    let end = arena::end_of(s, e);
    let mut i = at;
    for _ in 0..n {
        match arena::compare(s, e, end, i + first as usize) {
            Ordering::Equal => return Some(i),
            // The members that follow are greater still, and so are their first parts.
            Ordering::Less => return None,
            Ordering::Greater => i = arena::end_of(s, i),
        }
    }
    None
}

// Whether the value at e is a member of the set at a.
pub fn contains(s: &[u64], e: usize, a: usize) -> bool
    requires { SomeValue s.now (length s.now) e × SomeSet s.now (length s.now) a }
    ensures { Contains s.now e a result }
{
    let n = arena::low(s[a]) as usize;
    if of_cells(s, a) {
        let row = Places {
            at: a + 1,
            step: 1,
            n,
        };
        return find(s, row, s[e]).is_some();
    }
    seek(s, a + 1, n, e, false).is_some()
}

// The turn at two sets that both have members left: which of the first members comes first, and what is left then.
pub fn turn_at(s: &[u64], f: Fronts, keeps: Keeps) -> Turn
    requires { TwoFronts s.now f.a f.m f.b f.n }
    ensures { TurnAt s.now f.a f.m f.b f.n keeps.left keeps.both keeps.right result }
{
    let r = arena::compare_values(s, f.a, f.b);
    match r.order {
        Ordering::Less => Turn {
            from: f.a,
            end: r.a,
            keep: keeps.left,
            rest: Fronts {
                a: r.a,
                m: f.m - 1,
                ..f
            },
        },
        Ordering::Equal => Turn {
            from: f.a,
            end: r.a,
            keep: keeps.both,
            rest: Fronts {
                a: r.a,
                m: f.m - 1,
                b: r.b,
                n: f.n - 1,
            },
        },
        Ordering::Greater => Turn {
            from: f.b,
            end: r.b,
            keep: keeps.right,
            rest: Fronts {
                b: r.b,
                n: f.n - 1,
                ..f
            },
        },
    }
}

// Whether each cell of the left row is one of the right row, by a search for each.
fn search_cells(s: &[u64], rows: Fronts) -> bool
    requires { TwoRows s.now rows.a rows.m rows.b rows.n (length s.now) }
    ensures { RunIn s.now rows.a rows.m rows.b rows.n result }
{
    let right = Places {
        at: rows.b,
        step: 1,
        n: rows.n,
    };
    for i in rows.a..rows.a + rows.m {
        if find(s, right, s[i]).is_none() {
            return false;
        }
    }
    true
}

// The same by a walk over both. A step takes no branch on whether two cells are equal. A `while`, as in each walk over two rows: a step moves on
// in one of them or in both.
fn walk_cells(s: &[u64], rows: Fronts) -> bool
    requires { TwoRows s.now rows.a rows.m rows.b rows.n (length s.now) }
    ensures { RunIn s.now rows.a rows.m rows.b rows.n result }
{
    let mut f = rows;
    while f.m > 0 {
        if f.n < f.m {
            return false;
        }
        let x = s[f.a];
        let y = s[f.b];
        if x < y {
            return false;
        }
        let equal = (x == y) as usize;
        f = Fronts {
            a: f.a + equal,
            m: f.m - equal,
            b: f.b + 1,
            n: f.n - 1,
        };
    }
    true
}

// Whether each cell of the left row is one of the right row.
fn cells_included(s: &[u64], rows: Fronts) -> bool
    requires { TwoRows s.now rows.a rows.m rows.b rows.n (length s.now) }
    ensures { RunIn s.now rows.a rows.m rows.b rows.n result }
{
    if FEW * rows.m < rows.n {
        return search_cells(s, rows);
    }
    walk_cells(s, rows)
}

// Whether each member left of the left set is one left of the right set, member by member.
fn walk_included(s: &[u64], fronts: Fronts) -> bool
    requires { TwoRuns s.now fronts.a fronts.m fronts.b fronts.n (length s.now) }
    ensures { RunIn s.now fronts.a fronts.m fronts.b fronts.n result }
{
    let mut f = fronts;
    while f.m > 0 {
        if f.n == 0 {
            return false;
        }
        let t = turn_at(s, f, RIGHT);
        if !t.keep {
            return false;
        }
        f = t.rest;
    }
    true
}

// Whether each member of the set at a is one of the set at b.
pub fn included(s: &[u64], a: usize, b: usize) -> bool
    requires { SomeSet s.now (length s.now) a × SomeSet s.now (length s.now) b }
    ensures { Includes s.now a b result }
{
    let m = arena::low(s[a]) as usize;
    let n = arena::low(s[b]) as usize;
    if m > n {
        return false;
    }
    let fronts = Fronts {
        a: a + 1,
        m,
        b: b + 1,
        n,
    };
    if of_cells(s, a) && of_cells(s, b) {
        return cells_included(s, fronts);
    }
    walk_included(s, fronts)
}
