// Which classes hold themselves, which have an open part, and what the others weigh: marks, found from the parts up.
#![tactic(auto)]

ghost use Rattle.std.specs.Prelude.{◌≡◌, ◌+◌, ◌-◌, ◌*◌, ◌/◌, ◌%◌, ◌<◌, ◌≤◌, max, length, set, get_or};
ghost use Rattle.terms.specs.Terms.{Terms};
ghost use Rattle.terms.specs.Stacks.{Stacked};
ghost use Rattle.terms.specs.Decided.{class_mark, Decision};
ghost use Rattle.deciding.specs.Marking.{word_shape, FlattenedTo, FlatTo, FlatTerms, mark_over, mark_shape, Final, Answered, ClassAt};
ghost use Rattle.deciding.specs.Marking.{PartsSmall, PartUnmarked, NextPart};
ghost use Rattle.deciding.specs.Visit.{Visiting, VisitTurn, Resting, VisitNext, VisitedAt, MarkedTo, MarkedOn, StackRoom};

use terms::{Stack, Term};

// A mark: 0 none yet, WAITING while its parts are looked at, else the type's weight, HEAVY for 65 and more, and OPENED added where a part is open.
// It stays a byte, so that a table's marks fit a fixed array, and `class_mark` of its contracts is that byte. The marks stay an array beside
// the terms (fixed memory: a struct of both takes eight bytes for five), so the contracts say that both are as long; callers lend parts of both.
const WAITING: u8 = 127;

pub const HEAVY: u8 = 65;

pub const OPENED: u8 = 128;

// A class is part of itself, so no types satisfy the terms.
#[derive(Clone, Copy)]
struct Cycle;

// The word of variable v where a link to a link becomes the further link.
fn shortened(terms: &[u32], v: usize) -> u32
    requires { Terms (length terms.now) terms.now × (v < length terms.now) }
    ensures { FlattenedTo terms.now (get_or terms.now v 0) result }
{
    let w = terms[v];
    if let Term::Link(u) = Term::from(w) {
        let further = terms[u];
        if let Term::Link(_) = Term::from(further) {
            return further;
        }
    }
    w
}

// Afterwards each link goes to a class: the smaller variables come first.
fn flatten(terms: &mut [u32])
    requires { Terms (length terms.old) terms.old }
    ensures { FlatTo (length terms.old) terms.old terms.new (length terms.old) }
{
    for v in 0..terms.len() {
        terms[v] = shortened(terms, v);
    }
}

// OPENED where one of two marks has it.
fn open_part(a: u8, b: u8) -> u8
    ensures { result ≡ 128 * max (a / 128) (b / 128) }
{
    if a < OPENED && b < OPENED { 0 } else { OPENED }
}

// The mark of a class whose parts have the marks a and b; b is 0 where there is one part, as in `mark_over a b` of its contract (0 adds nothing).
fn mark_over(a: u8, b: u8) -> u8
    requires { (a % 128 ≤ 65) × (b % 128 ≤ 65) }
    ensures { result ≡ mark_over a b }
{
    open_part(a, b) + (a % OPENED + b % OPENED + 1).min(HEAVY)
}

// The mark of class c, whose parts have theirs. A class's term is no link.
fn mark_of(terms: &[u32], marks: &[u8], c: usize) -> u8
    requires { ClassAt terms.now marks.now c × PartsSmall terms.now marks.now c }
    ensures { result ≡ mark_shape (class_mark terms.now marks.now) (word_shape terms.now c) }
{
    match Term::from(terms[c]) {
        Term::Open | Term::Link(_) => OPENED + 1,
        Term::Atom(_) => 1,
        Term::Power(v) => mark_over(marks[terms::class(terms, v)], 0),
        Term::Product(v, u) => {
            let a = marks[terms::class(terms, v)];
            let b = marks[terms::class(terms, u)];
            mark_over(a, b)
        }
    }
}

// Whether a mark stays.
fn is_marked(m: u8) -> bool
    ensures { Answered (Final m) result }
{
    m != 0 && m != WAITING
}

// The class of part v, where that is not marked yet.
fn unmarked(terms: &[u32], marks: &[u8], v: usize) -> Option<usize>
    requires { Terms (length terms.now) terms.now × (v < length terms.now) × (length marks.now ≡ length terms.now) }
    ensures { PartUnmarked terms.now marks.now v result }
{
    let c = terms::class(terms, v);
    if is_marked(marks[c]) { None } else { Some(c) }
}

// A part of class c, as a class, that is not marked yet.
fn next_part(terms: &[u32], marks: &[u8], c: usize) -> Option<usize>
    requires { ClassAt terms.now marks.now c }
    ensures { NextPart terms.now marks.now c result }
{
    match Term::from(terms[c]) {
        Term::Power(v) => unmarked(terms, marks, v),
        Term::Product(v, u) => unmarked(terms, marks, v).or_else(|| unmarked(terms, marks, u)),
        _ => None,
    }
}

// Puts class p on the stack of those that wait.
fn push(marks: &mut [u8], stack: &mut Stack, p: usize)
    requires { (p < length marks.old) × (p < 4096) × (stack.old.height < length stack.old.words.now) }
    ensures { (marks.new ≡ set marks.old p 127) × Stacked stack.old (set stack.old.words.now stack.old.height p) (stack.old.height + 1) stack.new }
{
    marks[p] = WAITING;
    stack.push(p as u32);
}

// Marks class c, which is on top of the stack, and takes it off; or puts one of its parts on it. The terms, the marks and the stack are
// no struct: each of its methods would have to promise that the terms stay, which a parameter by `&` says by itself.
fn turn(terms: &[u32], marks: &mut [u8], stack: &mut Stack, c: usize) -> Result<(), Cycle>
    requires flat_terms { FlatTerms (length terms.now) terms.now × Visiting (length terms.now) terms.now marks.old stack.old.words.now stack.old.height }
    requires on_top { (0 < stack.old.height) × (c ≡ get_or stack.old.words.now (stack.old.height - 1) 0) }
    ensures { VisitTurn (length terms.now) terms.now marks.old stack.old marks.new stack.new result }
{
    let Some(p) = next_part(terms, marks, c) else {
        marks[c] = mark_of(terms, marks, c);
        stack.pop();
        return Ok(());
    };
    if marks[p] == WAITING {
        return Err(Cycle);
    }
    push(marks, stack, p);
    Ok(())
}

// Marks class v and what it is made of. The stack has the classes that wait, each a part of the one below.
fn visit(terms: &[u32], marks: &mut [u8], stack: &mut Stack, v: usize) -> Result<(), Cycle>
    requires flat_terms { FlatTerms (length terms.now) terms.now × Resting (length terms.now) terms.now marks.old }
    requires visit_next { VisitNext (length terms.now) terms.now marks.old v }
    requires stack_room { StackRoom (length terms.now) stack.old }
    ensures { VisitedAt (length terms.now) terms.now marks.old marks.new stack.new v result }
{
    push(marks, stack, v);
    while let Some(c) = stack.last() {
        turn(terms, marks, stack, c as usize)?;
    }
    Ok(())
}

// Whether v is a class without a mark.
fn is_next(terms: &[u32], marks: &[u8], v: usize) -> bool
    requires { Terms (length terms.now) terms.now × (v < length terms.now) × (length marks.now ≡ length terms.now) }
    ensures { Answered (VisitNext (length terms.now) terms.now marks.now v) result }
{
    match Term::from(terms[v]) {
        Term::Link(_) => false,
        _ => marks[v] == 0,
    }
}

// Marks v where it is a class without a mark.
fn mark_next(terms: &[u32], marks: &mut [u8], stack: &mut Stack, v: usize) -> Result<(), Cycle>
    requires flat_terms { FlatTerms (length terms.now) terms.now × MarkedTo (length terms.now) terms.now marks.old v }
    requires v_in_bounds { (v < length terms.now) × StackRoom (length terms.now) stack.old }
    ensures { MarkedOn (length terms.now) terms.now marks.new stack.new (v + 1) result }
{
    if is_next(terms, marks, v) {
        visit(terms, marks, stack, v)
    } else {
        Ok(())
    }
}

// Marks each class.
fn mark_all(terms: &[u32], marks: &mut [u8], stack: &mut Stack) -> Result<(), Cycle>
    requires flat_terms { FlatTerms (length terms.now) terms.now × MarkedTo (length terms.now) terms.now marks.old 0 }
    requires stack_room { StackRoom (length terms.now) stack.old }
    ensures { MarkedOn (length terms.now) terms.now marks.new stack.new (length terms.now) result }
{
    for v in 0..terms.len() {
        mark_next(terms, marks, stack, v)?;
    }
    Ok(())
}

// Makes links go to classes, and marks the classes. False where a class is part of itself: then no types satisfy the terms.
pub fn decide(terms: &mut [u32], marks: &mut [u8], stack: &mut [u32]) -> bool
    requires { Terms (length terms.old) terms.old × (length marks.old ≡ length terms.old) × (length terms.old + 2 ≤ length stack.old) }
    ensures { Decision (length terms.old) terms.old terms.new marks.new result }
{
    flatten(terms);
    marks.fill(0);
    let mut waiting = Stack {
        words: stack,
        height: 0,
    };
    mark_all(terms, marks, &mut waiting).is_ok()
}
