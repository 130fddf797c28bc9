// Classes of variables: links to smaller variables lead to a class's least variable, which has the class's shape. Equations merge classes.
#![tactic(auto)]

ghost use Rattle.std.specs.Prelude.{◌≡◌, ◌+◌, ◌<◌, ◌≤◌, length};
ghost use Rattle.terms.specs.Words.{word_form};
ghost use Rattle.terms.specs.Terms.{Terms};
ghost use Rattle.classes.specs.Merging.{Mergeable, MergedAll};
ghost use Rattle.classes.specs.Finding.{ClassFound};
ghost use Rattle.classes.specs.Joining.{LeavesIf, known_word, Joined};
ghost use Rattle.classes.specs.Turning.{Pushed, Turnable, TurnedTo, StackMergeable, StackMerged};

use terms::{Stack, Term};

// The first equation that clashes with those before it.
#[derive(Clone, Copy)]
pub enum Clash {
    // Its two classes differ in form or in atom.
    Here(usize),
    // Parts of its two classes do.
    Inside(usize),
}

// The class of v. Links on the way are shortened.
fn find(terms: &mut [u32], v: usize) -> usize
    requires { Terms (length terms.old) terms.old × (v < length terms.old) }
    ensures { ClassFound (length terms.old) terms.old v terms.new result }
{
    let mut x = v;
    while let Term::Link(y) = Term::from(terms[x]) {
        let further = terms[y];
        let Term::Link(z) = Term::from(further) else {
            return y;
        };
        terms[x] = further;
        x = z;
    }
    x
}

// How many equations between parts the shapes s and t leave, where they are of one class; none where they clash. A match on the pair of
// both terms reads better, but merges in 1.7 times the time of this one.
fn leaves(s: u32, t: u32) -> Option<usize>
    requires { word_form s ≤ 3 }
    ensures { LeavesIf s t result }
{
    if let Term::Open = Term::from(s) {
        return Some(0);
    }
    match Term::from(t) {
        Term::Open => Some(0),
        Term::Atom(b) if matches!(Term::from(s), Term::Atom(a) if a == b) => Some(0),
        Term::Power(_) if matches!(Term::from(s), Term::Power(_)) => Some(1),
        Term::Product(..) if matches!(Term::from(s), Term::Product(..)) => Some(2),
        _ => None,
    }
}

// The shape of the merged class: the one that is known.
fn known(s: u32, t: u32) -> u32
    ensures { result ≡ known_word s t }
{
    if let Term::Open = Term::from(s) { t } else { s }
}

// Makes one class of p and q, which have the shapes s and t.
fn join(terms: &mut [u32], p: usize, q: usize, s: u32, t: u32)
    requires { (p < length terms.old) × (q < length terms.old) × (length terms.old ≤ 4096) }
    ensures { Joined terms.old p q (known_word s t) terms.new }
{
    let low = p.min(q);
    terms[p.max(q)] = terms::link(low);
    terms[low] = known(s, t);
}

// Puts as many equations between the parts of s and t on the stack: none, that of the first parts, or both.
fn push(stack: &mut Stack, s: u32, t: u32, count: usize)
    requires { (count ≤ 2) × (stack.old.height + 2 ≤ length stack.old.words.now) }
    ensures { Pushed stack.old s t count stack.new }
{
    if count == 0 {
        return;
    }
    stack.push(terms::equation(terms::left(s), terms::left(t)));
    if count == 1 {
        return;
    }
    stack.push(terms::equation(terms::right(s), terms::right(t)));
}

// Makes one class of the two of equation e, and puts on the stack what that leaves; none where they clash.
fn turn(terms: &mut [u32], stack: &mut Stack, e: u32) -> Option<()>
    requires { Turnable (length terms.old) terms.old stack.old.words.now stack.old.height e }
    ensures { TurnedTo (length terms.old) terms.old stack.old e terms.new stack.new result }
{
    let p = find(terms, terms::left_side(e));
    let q = find(terms, terms::right_side(e));
    if p != q {
        let s = terms[p];
        let t = terms[q];
        let count = leaves(s, t)?;
        join(terms, p, q, s, t);
        push(stack, s, t, count);
    }
    Some(())
}

// Merges what is on the stack; none where that clashes.
fn merge_stack(terms: &mut [u32], stack: &mut Stack) -> Option<()>
    requires { StackMergeable (length terms.old) terms.old stack.old.words.now stack.old.height }
    ensures { StackMerged (length terms.old) terms.old stack.old terms.new stack.new result }
{
    while let Some(e) = stack.pop() {
        turn(terms, stack, e)?;
    }
    Some(())
}

// Merges the equations in turn.
pub fn merge_all(terms: &mut [u32], stack: &mut [u32], equations: &[u32]) -> Result<(), Clash>
    requires { Mergeable (length terms.old) terms.old stack.old equations.now }
    ensures { MergedAll (length terms.old) terms.old equations.now result terms.new }
{
    let mut left = Stack {
        words: stack,
        height: 0,
    };
    for (i, &e) in equations.iter().enumerate() {
        turn(terms, &mut left, e).ok_or(Clash::Here(i))?;
        merge_stack(terms, &mut left).ok_or(Clash::Inside(i))?;
    }
    Ok(())
}
