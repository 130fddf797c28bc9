// Two sets in the arena, whose members rise, merged: union, intersection and difference.
#![tactic(auto)]

ghost use Rattle.std.specs.Prelude.{◌+◌, ◌≤◌, ◌<◌, true, cond, ◌≡◌, length};
ghost use Rattle.arena.specs.Code.{SomeSet};
ghost use Rattle.sets.specs.Fronts.{RunEnds};
ghost use Rattle.merging.specs.Walks.{PutPre, PutBehind, RestThere, StepPre, Stepped, RestOf, EndPre, Ended, SomeRuns, Compares, RunsBelow, RunsMerge, Merges};
ghost use Rattle.sets.specs.Rows.{Row};
ghost use Rattle.merging.specs.RowMerges.{Kept, CellTurned, RowsBelow, Ahead, FrontsMerge, SomeRowMerge, RowsWalked};

use sets::{Fronts, Keeps, Places};

// Where the members that have been built end, and their number.
#[derive(Clone, Copy)]
struct Out {
    to: usize,
    count: usize,
}

// A merge on its way: what is left of both sets, what has been built, and the comparisons made.
#[derive(Clone, Copy)]
struct Walk {
    fronts: Fronts,
    out: Out,
    turns: usize,
}

// Where the set that a merge has built ends, none where it weighs over 256, and the comparisons of the whole merge.
#[derive(Drop)]
pub struct Pass {
    pub end: Option<usize>,
    pub comparisons: u64,
}

// Where a merge of cells stands: at a in one set and at b in the other, what has been built ends at `to`, and the comparisons made. A Walk
// would be no plainer: its other words, the numbers of what is left and built, follow from where both rows end, and each turn would count them too.
#[derive(Drop)]
struct Place {
    a: usize,
    b: usize,
    to: usize,
    turns: usize,
}

// What is kept of the rest of one set.
#[derive(Drop)]
struct Rest {
    at: usize,
    n: usize,
}

// A turn of a walk over two sets of cells: the lesser of the first cells, and by how many cells what is built and both sets move on.
#[derive(Drop)]
struct CellTurn {
    cell: u64,
    keep: usize,
    left: usize,
    right: usize,
}

// Where n members from `at` on end; members of one cell each need no walk. A cursor over the others: they differ in length.
fn rest_end(s: &[u64], at: usize, n: usize, cells: bool) -> usize
    requires { RestThere s.now at n cells }
    ensures { RunEnds s.now at n result }
{
    if cells {
        return at + n;
    }
    let mut end = at;
    for _ in 0..n {
        end = arena::end_of(s, end);
    }
    end
}

// Puts the run from `from` to `end`, of k members, behind what has been built, if it is kept.
fn put(s: &mut [u64], from: usize, end: usize, k: usize, keep: bool, o: Out) -> Out
    requires { PutPre s.old from end k o }
    ensures { PutBehind keep s.old from end k o s.new result }
{
    let to = arena::copy_if(s, from, end, keep, o.to);
    let more = if keep { k } else { 0 };
    Out {
        to,
        count: o.count + more,
    }
}

// One turn of a merge.
fn step(s: &mut [u64], w: Walk, keeps: Keeps) -> Walk
    requires { StepPre keeps.left keeps.both keeps.right s.old w }
    ensures { Stepped keeps.left keeps.both keeps.right s.old w s.new result }
{
    let t = sets::turn_at(s, w.fronts, keeps);
    let out = put(s, t.from, t.end, 1, t.keep, w.out);
    Walk {
        fronts: t.rest,
        out,
        turns: w.turns + 1,
    }
}

fn rest_of(f: Fronts, keeps: Keeps) -> Rest
    ensures { RestOf f keeps.left keeps.right result }
{
    if f.m > 0 {
        let n = if keeps.left { f.m } else { 0 };
        return Rest { at: f.a, n };
    }
    let n = if keeps.right { f.n } else { 0 };
    Rest { at: f.b, n }
}

// The end of a merge: the rest of the set that is not exhausted, and the cell of the set that has been built.
fn finish(s: &mut [u64], w: Walk, top: usize, keeps: Keeps, cells: bool) -> Option<usize>
    requires { EndPre keeps.left keeps.right s.old w top cells }
    ensures { Ended keeps.left keeps.right s.old w top s.new result }
{
    let limit = top + arena::HEAVIEST;
    if w.out.to > limit {
        return None;
    }
    let q = rest_of(w.fronts, keeps);
    let end = rest_end(s, q.at, q.n, cells);
    let o = put(s, q.at, end, q.n, true, w.out);
    if o.to > limit {
        return None;
    }
    s[top] = arena::SET + o.count as u64;
    Some(o.to)
}

// 1 if the lesser of the first cells x and y is kept, 0 if not.
fn kept(x: u64, y: u64, keeps: Keeps) -> usize
    ensures { Kept keeps.left keeps.both keeps.right x y result }
{
    if x < y {
        usize::from(keeps.left)
    } else if y < x {
        usize::from(keeps.right)
    } else {
        usize::from(keeps.both)
    }
}

// The turn at two sets of cells whose first ones are x and y, with no branch on their order.
fn cell_turn(x: u64, y: u64, keeps: Keeps) -> CellTurn
    ensures { CellTurned keeps.left keeps.both keeps.right x y result }
{
    CellTurn {
        cell: x.min(y),
        keep: kept(x, y, keeps),
        left: usize::from(x <= y),
        right: usize::from(y <= x),
    }
}

// How many of m cells from a on come before the first of n from b on; they are found by halving.
fn front(s: &[u64], a: usize, m: usize, b: usize, n: usize) -> usize
    requires { Row s.now a 1 m × (0 < n → b < length s.now) }
    ensures { Ahead s.now a m b n result }
{
    if m == 0 || n == 0 || s[a] >= s[b] {
        return 0;
    }
    let row = Places {
        at: a,
        step: 1,
        n: m,
    };
    sets::lower_bound(s, row, s[b])
}

// What comes before the other set's first cell is taken or left as a whole, first of the left set, then of the right one. Each cell is a
// comparison.
fn merge_fronts(s: &mut [u64], f: Fronts, top: usize, keeps: Keeps) -> Place
    requires { RowsBelow s.old f.a f.m f.b f.n top }
    ensures { FrontsMerge keeps.left keeps.right s.old f.a f.m f.b f.n top s.new result }
{
    let p = front(s, f.a, f.m, f.b, f.n);
    let a = f.a + p;
    let q = front(s, f.b, f.n, a, f.m - p);
    let b = f.b + q;
    let none = Out {
        to: top + 1,
        count: 0,
    };
    let left = put(s, f.a, a, p, keeps.left, none);
    let right = put(s, f.b, b, q, keeps.right, left);
    Place {
        a,
        b,
        to: right.to,
        turns: p + q,
    }
}

// Goes on from w, cell by cell, up to the end of one of the sets. The cell of a turn is stored whether it is kept or not. A `while`, as in each walk
// over two sets: a turn moves on in one of them or in both.
fn walk_rows(s: &mut [u64], w: Place, end: usize, end2: usize, keeps: Keeps) -> Place
    requires { SomeRowMerge keeps.left keeps.both keeps.right s.old w end end2 }
    ensures { RowsWalked keeps.left keeps.both keeps.right s.old w end end2 s.new result }
{
    let mut i = w.a;
    let mut j = w.b;
    let mut to = w.to;
    let mut turns = w.turns;
    while i < end && j < end2 {
        let t = cell_turn(s[i], s[j], keeps);
        s[to] = t.cell;
        to += t.keep;
        i += t.left;
        j += t.right;
        turns += 1;
    }
    Place {
        a: i,
        b: j,
        to,
        turns,
    }
}

// The same. A union keeps the cell of every turn: called with constants, it has a loop of its own, in which `to` counts the turns.
fn walk_by_kind(s: &mut [u64], w: Place, end: usize, end2: usize, keeps: Keeps) -> Place
    requires { SomeRowMerge keeps.left keeps.both keeps.right s.old w end end2 }
    ensures { RowsWalked keeps.left keeps.both keeps.right s.old w end end2 s.new result }
{
    if keeps == sets::UNION {
        return walk_rows(s, w, end, end2, sets::UNION);
    }
    walk_rows(s, w, end, end2, keeps)
}

// Builds at top the set as `merge` does, of members of one cell each.
fn merge_cells(s: &mut [u64], f: Fronts, top: usize, keeps: Keeps) -> Pass
    requires { RowsBelow s.old f.a f.m f.b f.n top }
    ensures { RunsMerge keeps.left keeps.both keeps.right s.old f.a f.m f.b f.n top s.new result }
{
    let end = f.a + f.m;
    let end2 = f.b + f.n;
    let w = merge_fronts(s, f, top, keeps);
    let v = walk_by_kind(s, w, end, end2, keeps);
    let rest = Walk {
        fronts: Fronts {
            a: v.a,
            m: end - v.a,
            b: v.b,
            n: end2 - v.b,
        },
        out: Out {
            to: v.to,
            count: v.to - top - 1,
        },
        turns: v.turns,
    };
    Pass {
        end: finish(s, rest, top, keeps, true),
        comparisons: v.turns as u64,
    }
}

// The comparisons of a merge of what is left of two sets.
fn comparisons(s: &[u64], fronts: Fronts) -> usize
    requires { SomeRuns s.now fronts.a fronts.m fronts.b fronts.n }
    ensures { Compares s.now fronts.a fronts.m fronts.b fronts.n result }
{
    let mut f = fronts;
    let mut turns = 0;
    while f.m > 0 && f.n > 0 {
        f = sets::turn_at(s, f, sets::UNION).rest;
        turns += 1;
    }
    turns
}

// The same as `merge_cells`, member by member. What is too heavy is built no further, and only its comparisons are counted.
fn walk_merge(s: &mut [u64], fronts: Fronts, top: usize, keeps: Keeps) -> Pass
    requires { RunsBelow s.old fronts.a fronts.m fronts.b fronts.n top }
    ensures { RunsMerge keeps.left keeps.both keeps.right s.old fronts.a fronts.m fronts.b fronts.n top s.new result }
{
    let limit = top + arena::HEAVIEST;
    let mut w = Walk {
        fronts,
        out: Out {
            to: top + 1,
            count: 0,
        },
        turns: 0,
    };
    while w.fronts.m > 0 && w.fronts.n > 0 && w.out.to <= limit {
        w = step(s, w, keeps);
    }
    let more = comparisons(s, w.fronts);
    Pass {
        end: finish(s, w, top, keeps, false),
        comparisons: (w.turns + more) as u64,
    }
}

// Builds at top the set of those members of the sets at a and b that are to be kept. By cells where the members of both sets are one cell each.
pub fn merge(s: &mut [u64], a: usize, b: usize, top: usize, keeps: Keeps) -> Pass
    requires { SomeSet s.old top a × SomeSet s.old top b × (top + 514 ≤ length s.old) }
    ensures { Merges keeps.left keeps.both keeps.right s.old a b top s.new result }
{
    let fronts = Fronts {
        a: a + 1,
        m: arena::low(s[a]) as usize,
        b: b + 1,
        n: arena::low(s[b]) as usize,
    };
    if sets::of_cells(s, a) && sets::of_cells(s, b) {
        return merge_cells(s, fronts, top, keeps);
    }
    walk_merge(s, fronts, top, keeps)
}
