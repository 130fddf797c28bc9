// The power set of a set in the arena.
#![tactic(auto)]

ghost use Rattle.std.specs.Prelude.{◌+◌, ◌*◌, ◌<◌, ◌≤◌, length};
ghost use Rattle.arena.specs.Code.{SomeSet};
ghost use Rattle.powers.specs.Power.{Powers, masks, CountsSubsets, MarkPre, Marks, SubsetPre, Subsets, AllPre, AllSubsets};

// The places of at most five members, and where the last one ends: an array of that many with a number beside it (no heap, fixed memory).
const PLACES: usize = 6;

// Where each of n members from a on begins, and where the last one ends.
fn marks(s: &[u64], a: usize, n: usize) -> [usize; PLACES]
    requires { MarkPre s.now a n }
    ensures { Marks s.now a n result }
{
    let mut at = [a; PLACES];
    for j in 0..n {
        at[j + 1] = arena::end_of(s, at[j]);
    }
    at
}

// The set of those members whose bits `mask` has; `at` tells where they begin, and where the last one ends.
fn subset(s: &mut [u64], at: &[usize], mask: usize, to: usize) -> usize
    requires { SubsetPre s.old at.now to }
    ensures { Subsets s.old at.now mask to s.new result }
{
    let mut bits = mask;
    let mut end = to + 1;
    let mut count = 0;
    for j in 0..at.len() - 1 {
        let keep = bits % 2 == 1;
        end = arena::copy_if(s, at[j], at[j + 1], keep, end);
        count += u64::from(keep);
        bits /= 2;
    }
    s[to] = arena::SET + count;
    end
}

// Subsets of at most five members as bits: fewer members first, then by the greatest members that differ, as the masks do as numbers.
static MASKS: [usize; 32] = [
    0, 1, 2, 4, 8, 16, 3, 5, 6, 9, 10, 12, 17, 18, 20, 24, 7, 11, 13, 14, 19, 21, 22, 25, 26, 28,
    15, 23, 27, 29, 30, 31,
];

// The number of subsets of n members; 64 for more than five, too many whatever they weigh. An Option would be no plainer: the
// test of the weight refuses these as it does others.
fn subset_count(n: usize) -> usize
    ensures { CountsSubsets n result }
{
    1 << n.min(6)
}

// The subsets of members for the masks below p. Not inlined into the evaluators, where its values would lie on the stack.
#[inline(never)]
fn all_subsets(s: &mut [u64], at: &[usize], p: usize, to: usize) -> usize
    requires { AllPre s.old at.now p to }
    ensures { AllSubsets s.old at.now p to s.new result }
{
    let mut end = to;
    for &mask in &MASKS {
        if mask < p {
            end = subset(s, at, mask, end);
        }
    }
    end
}

pub fn power(s: &mut [u64], a: usize, top: usize) -> Option<usize>
    requires { SomeSet s.old top a × (top + 514 ≤ length s.old) }
    ensures { Powers s.old a top s.new result }
{
    let x = products::size_of(s, a);
    let p = subset_count(x.members);
    if 1 + p + p / 2 * x.cells > arena::HEAVIEST {
        return None;
    }
    let at = marks(s, a + 1, x.members);
    let end = all_subsets(s, &at[..x.members + 1], p, top + 1);
    s[top] = arena::SET + p as u64;
    Some(end)
}
