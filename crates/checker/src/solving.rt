// Solves the constraints of a table, and finds the first node whose rule leaves no typing (refusal 11).
ghost use Rattle.std.specs.Prelude.{◌+◌, ◌<◌, ◌≤◌, ◌≡◌, length, take};
ghost use Rattle.rules.specs.Tables.{table_of, node_count};
ghost use Rattle.classes.specs.Merging.{MergedAll};
ghost use Rattle.checker.specs.Solving.{Ready, WorkRoom, TypableIs, Untypable, FirstClash, NodesTo, SolvedTo, PartRoom, Satisfiable};
ghost use Rattle.checker.specs.Attempts.{Attempted};

use classes::Clash;
use constraints::{equation_count, variable};

// A table with its constraints: the shapes of its variables, its equations, and for each node its variable and how many equations come before
// its own. Solving reads the table's size alone; the contracts speak of its bytes. Tried, and the proof didn't close: `Ready` as a ghost field,
// which has to be a proposition, and what a readable table says goes by cases.
#[derive(Clone, Copy)]
pub(crate) struct Problem<'a> {
    pub(crate) table: &'a [u8],
    pub(crate) shapes: &'a [u32],
    pub(crate) equations: &'a [u32],
    pub(crate) starts: &'a [u32],
}

// Where they are solved: the terms of the variables and their marks, and a stack. `WorkRoom` stays a clause of each function: a ghost field
// beside a `&mut` is not covered. Terms and marks stay two arrays: callees take one without the other, and a struct of both takes 8 bytes for 5.
#[derive(Drop)]
pub(crate) struct Work<'a> {
    pub(crate) terms: &'a mut [u32],
    pub(crate) stack: &'a mut [u32],
    pub(crate) marks: &'a mut [u8],
}

// Why there is no solution: an equation is the first that clashes, and those before it are solved; or there is none up to an equation, the
// number of equations where that is one of all: an Option is no plainer, since the bisection takes this number as a bound.
#[derive(Clone, Copy)]
enum Unsolved {
    At(usize),
    UpTo(usize),
}

// The slices that `merge_shapes`, `satisfiable` and `solve_shapes` take are no Problem and Work: they are the parts of those below a node.

// The first terms are the shapes. By hand: std's `copy_from_slice` calls memmove, and the archive for C is to need no name from outside but memset.
fn copy(shapes: &[u32], terms: &mut [u32])
    requires { length terms.old ≤ length shapes.now }
    ensures { terms.new ≡ take (length terms.old) shapes.now }
{
    for i in 0..terms.len() {
        terms[i] = shapes[i];
    }
}

// The terms of the shapes with the equations, as far as these go without a clash.
fn merge_shapes(
    shapes: &[u32],
    equations: &[u32],
    terms: &mut [u32],
    stack: &mut [u32],
) -> Result<(), Clash>
    requires { PartRoom (length terms.old) shapes.now equations.now stack.old }
    ensures { MergedAll (length terms.old) (take (length terms.old) shapes.now) equations.now result terms.new }
{
    copy(shapes, terms);
    classes::merge_all(terms, stack, equations)
}

// Whether types satisfy the shapes and the equations.
fn satisfiable(
    shapes: &[u32],
    equations: &[u32],
    terms: &mut [u32],
    stack: &mut [u32],
    marks: &mut [u8],
) -> bool
    requires { PartRoom (length terms.old) shapes.now equations.now stack.old × (length marks.old ≡ length terms.old) }
    ensures { Satisfiable (length terms.old) (take (length terms.old) shapes.now) equations.now result }
{
    match merge_shapes(shapes, equations, terms, stack) {
        Ok(()) => deciding::decide(terms, marks, stack),
        Err(_) => false,
    }
}

// Whether the rules of the nodes below k have a typing.
fn typable(problem: Problem, work: &mut Work, k: usize) -> bool
    requires ready { Ready problem.table.now problem.shapes.now problem.equations.now problem.starts.now }
    requires work_room { WorkRoom problem.table.now work.old.terms.now work.old.stack.now work.old.marks.now }
    requires k_bound { k ≤ node_count problem.table.now }
    ensures typable { TypableIs (table_of problem.entry.table.now) k result }
    ensures work_room { WorkRoom problem.entry.table.now work.new.terms.now work.new.stack.now work.new.marks.now }
{
    let v = variable(problem.starts, k);
    let m = equation_count(problem.starts, k);
    satisfiable(
        problem.shapes,
        &problem.equations[..m],
        &mut work.terms[..v],
        work.stack,
        &mut work.marks[..v],
    )
}

// Where the bisection looks next: first at the last node, which most often is the one, then in the middle.
fn middle(lo: usize, hi: usize, n: usize) -> usize
    requires { lo + 1 < hi }
    ensures { (lo < result) × (result < hi) }
{
    if hi == n {
        return hi - 1;
    }
    lo + (hi - lo) / 2
}

// The first node whose rule leaves no typing, where the nodes below n have none. The nodes below lo always have a typing,
// those below hi none.
fn first_clash(problem: Problem, work: &mut Work, n: usize) -> usize
    requires ready { Ready problem.table.now problem.shapes.now problem.equations.now problem.starts.now }
    requires work_room { WorkRoom problem.table.now work.old.terms.now work.old.stack.now work.old.marks.now }
    requires n_bound { n ≤ node_count problem.table.now }
    requires untypable { Untypable (table_of problem.table.now) n }
    ensures first { FirstClash (table_of problem.entry.table.now) n result }
    ensures work_room { WorkRoom problem.entry.table.now work.new.terms.now work.new.stack.now work.new.marks.now }
{
    // std's binary searches go over slices, and these are numbers of nodes.
    let mut lo: usize = 0;
    let mut hi: usize = n;
    while hi - lo > 1 {
        let mid = middle(lo, hi, n);
        if typable(problem, work, mid) {
            lo = mid;
        } else {
            hi = mid;
        }
    }
    lo
}

// The number of nodes up to the one of equation e, at most n.
fn nodes_to(starts: &[u32], e: usize, n: usize) -> usize
    requires { n < length starts.now }
    ensures { NodesTo starts.now e n result }
{
    let Some(k) = (0..n).find(|k| e < equation_count(starts, *k + 1)) else {
        return n;
    };
    k + 1
}

// Solves the shapes with all equations, or with those before the first that clashes.
fn solve_shapes(
    shapes: &[u32],
    equations: &[u32],
    terms: &mut [u32],
    stack: &mut [u32],
    marks: &mut [u8],
) -> Result<(), Unsolved>
    requires { PartRoom (length terms.old) shapes.now equations.now stack.old × (length marks.old ≡ length terms.old) }
    ensures { Attempted (length terms.old) (take (length terms.old) shapes.now) equations.now result
        terms.new marks.new }
{
    match merge_shapes(shapes, equations, terms, stack) {
        Ok(()) => {
            if deciding::decide(terms, marks, stack) {
                return Ok(());
            }
            Err(Unsolved::UpTo(equations.len()))
        }
        Err(Clash::Here(e)) => {
            if deciding::decide(terms, marks, stack) {
                return Err(Unsolved::At(e));
            }
            Err(Unsolved::UpTo(e))
        }
        Err(Clash::Inside(e)) => Err(Unsolved::UpTo(e)),
    }
}

// The terms and marks of the whole table, or the first node whose rule leaves no typing.
pub(crate) fn solve(problem: Problem, work: &mut Work) -> Result<(), usize>
    requires ready { Ready problem.table.now problem.shapes.now problem.equations.now problem.starts.now }
    requires work_room { WorkRoom problem.table.now work.old.terms.now work.old.stack.now work.old.marks.now }
    ensures solved { SolvedTo (table_of problem.entry.table.now) (node_count problem.entry.table.now) work.new.terms.now work.new.marks.now result }
    ensures work_room { WorkRoom problem.entry.table.now work.new.terms.now work.new.stack.now work.new.marks.now }
{
    let n = table::nodes(problem.table);
    let v = variable(problem.starts, n);
    let m = equation_count(problem.starts, n);
    match solve_shapes(
        problem.shapes,
        &problem.equations[..m],
        &mut work.terms[..v],
        work.stack,
        &mut work.marks[..v],
    ) {
        Ok(()) => Ok(()),
        Err(Unsolved::At(e)) => Err(nodes_to(problem.starts, e, n) - 1),
        Err(Unsolved::UpTo(e)) => {
            let hi = nodes_to(problem.starts, e, n);
            Err(first_clash(problem, work, hi))
        }
    }
}
