// The parts of the pairs of a set in the arena: domain and range.
#![tactic(auto)]

ghost use Rattle.std.specs.Prelude.{ℕ, ◌≡◌, ◌+◌, ◌-◌, ◌<◌, ◌≤◌, length};
ghost use Rattle.arena.specs.Code.{SomeRelation, Copied};
ghost use Rattle.parts.specs.Parts.{PartsPre, TakesParts, Domains, Ranges, FindPre, Finds, InsertPre, FindsPlace, Inserts, MovedLast};

use std::cmp::Ordering;

// Members that have been built: where the last one stands, where they end, their number.
#[derive(Clone, Copy)]
struct Out {
    last: Option<usize>,
    to: usize,
    count: u64,
}

// The value from p to `end` among the rising members from `from` to `to`: where it stands, or the place where it belongs, as std's searches answer.
// A cursor over cells: members differ in length, so that no index halves them or counts them.
fn find(s: &[u64], p: usize, end: usize, from: usize, to: usize) -> Result<usize, usize>
    requires { FindPre s.now p end from to }
    ensures { Finds s.now p end from to result }
{
    let mut i = from;
    while i < to {
        match arena::compare(s, p, end, i) {
            Ordering::Less => return Err(i),
            Ordering::Equal => return Ok(i),
            Ordering::Greater => i = arena::end_of(s, i),
        }
    }
    Err(to)
}

// The same among the members that have been built. Parts often come in rising order: the last member is looked at first.
fn place_for(s: &[u64], p: usize, end: usize, from: usize, o: Out) -> Result<usize, usize>
    requires { InsertPre s.now p end from o }
    ensures { FindsPlace s.now p end from o result }
{
    if let Some(last) = o.last {
        match arena::compare(s, p, end, last) {
            Ordering::Less => {}
            Ordering::Equal => return Ok(last),
            Ordering::Greater => return Err(o.to),
        }
    }
    find(s, p, end, from, o.to)
}

// Moves the members from `at` to `to` up by n cells. Parts often come in rising order, and then there are none.
fn move_up(s: &mut [u64], at: usize, to: usize, n: usize)
    requires { (at ≤ to) × (to + n ≤ length s.old) }
    ensures { Copied s.old at (to - at) (at + n) s.new }
{
    if at < to {
        arena::copy(s, at, to - at, at + n);
    }
}

// Where the last member stands after one of n cells has been put at `at` among members that ended at `to`.
fn moved_last(at: usize, to: usize, last: Option<usize>, n: usize) -> usize
    requires { (k : ℕ) → last ≡ Some k → k + n < 18446744073709551616 }
    ensures { MovedLast at to last n result }
{
    match last {
        Some(last) if at != to => last + n,
        _ => at,
    }
}

// Puts the value from p to `end` among the rising members that have been built from `from` on, unless it is there.
fn insert(s: &mut [u64], p: usize, end: usize, from: usize, o: Out) -> Out
    requires { InsertPre s.old p end from o }
    ensures { Inserts s.old p end from o s.new result }
{
    match place_for(s, p, end, from, o) {
        Ok(_) => o,
        Err(at) => {
            let n = end - p;
            move_up(s, at, o.to, n);
            arena::copy_forward(s, p, n, at);
            Out {
                last: Some(moved_last(at, o.to, o.last, n)),
                to: o.to + n,
                count: o.count + 1,
            }
        }
    }
}

// The set of the first or of the second parts of the pairs of a set.
fn parts(s: &mut [u64], a: usize, top: usize, second: bool) -> usize
    requires { PartsPre s.old a top }
    ensures { TakesParts second s.old a top s.new result }
{
    let from = top + 1;
    let mut i = a + 1;
    let mut o = Out {
        last: None,
        to: from,
        count: 0,
    };
    // The pairs that are left are counted down, as in `products::row`: domains take a twelfth fewer instructions so.
    for _ in (0..arena::low(s[a])).rev() {
        let x = i + 1;
        let y = arena::end_of(s, x);
        let e = arena::end_of(s, y);
        let (p, end) = if second { (y, e) } else { (x, y) };
        o = insert(s, p, end, from, o);
        i = e;
    }
    s[top] = arena::SET + o.count;
    o.to
}

// Domain and range: a constant apart, but both are named in docs/READING.md, and `side` of operations asks for one or the other.
pub fn domain(s: &mut [u64], a: usize, top: usize) -> usize
    requires { SomeRelation s.old top a × (top + 514 ≤ length s.old) }
    ensures { Domains s.old a top s.new result }
{
    parts(s, a, top, false)
}

pub fn range(s: &mut [u64], a: usize, top: usize) -> usize
    requires { SomeRelation s.old top a × (top + 514 ≤ length s.old) }
    ensures { Ranges s.old a top s.new result }
{
    parts(s, a, top, true)
}
