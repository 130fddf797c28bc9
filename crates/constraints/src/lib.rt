// The typing rules of a table's nodes as shapes of variables and equations between them. The variables are the identifiers, then for each
// node in order the node itself and the slots of its plan.
#![tactic(auto)]

ghost use Rattle.std.specs.Prelude.{◌≡◌, ℕ, ◌+◌, ◌/◌, ◌%◌, ◌<◌, ◌≤◌, get_or, length};
ghost use Rattle.rules.specs.Tables.{table_of, node_count};
ghost use Rattle.table.specs.Layout.{Fielded};
ghost use Rattle.constraints.specs.Constrained.{NodeRoom, Constrained};
ghost use Rattle.constraints.specs.Rules.{WordsOf, RuleRoom, RuleHeld, NodeRule, OperandVar, ReadyNode, NextNode};

use terms::{atom, equation, power, product};

// The codes of INTEGER, BOOL and the first given set, numbers since they are bytes of the sheet (C interface) and parts of words.
const INTEGER: usize = 1;

const BOOL: usize = 2;

const GIVEN: usize = 16;

// Nothing is known of a variable: the word that `terms::open` makes, a constant since it also stands where a kind has no such slot or equation.
const NONE: u32 = 0;

// In an entry of `starts` the number of a node's first equation stands above its variable: one word of fixed memory for both, packed as terms' are.
const EQUATION: u32 = 4096;

// A node has at most six variables, its own and five slots, and two equations.
const SHAPES: usize = 6;

const EQUATIONS: usize = 2;

// What a node adds: shapes, equations, and how many variables and equations it has, packed as in `starts`. The arrays have one size for all
// kinds, filled up with NONE: there is no Vec (project rule: no heap).
#[derive(Clone, Copy)]
struct NodeWords {
    shapes: [u32; SHAPES],
    equations: [u32; EQUATIONS],
    count: u32,
}

// The words of a node with V variables, the first of them its own, and E equations.
fn words<const V: usize, const E: usize>(shapes: [u32; V], equations: [u32; E]) -> NodeWords
    requires { (V ≤ 6) × (E ≤ 2) }
    ensures { WordsOf shapes.entry equations.entry result }
{
    let mut all_shapes = [NONE; SHAPES];
    all_shapes[..V].copy_from_slice(&shapes);
    let mut all_equations = [NONE; EQUATIONS];
    all_equations[..E].copy_from_slice(&equations);
    NodeWords {
        shapes: all_shapes,
        equations: all_equations,
        count: V as u32 + E as u32 * EQUATION,
    }
}

// In the rules `own` is the node's variable, `first` and `second` are those of the operands in fields a and b, `name` is the identifier or the
// given set in field a; those that the kind does not have are any numbers. They stay parameters: a struct of them would put `node.` before
// every name in the rows below, which read as the rules do.

// Rules are chosen by the codes of kinds (project rule).

// Kinds 1 to 11: the tests and quantifiers, 6 to 11. The others say nothing of types.
fn condition_rule(kind: usize, own: usize, first: usize, second: usize, name: usize) -> NodeWords
    requires { (kind ≤ 11) × RuleRoom own first second name }
    ensures { RuleHeld kind own first second name result }
{
    let s = own + 1;
    match kind {
        6 => words([NONE], [equation(first, second)]),
        7 => words([NONE, power(first)], [equation(second, s)]),
        8 => words(
            [NONE, NONE, power(s)],
            [equation(first, s + 1), equation(second, s + 1)],
        ),
        9 => words(
            [NONE, atom(INTEGER)],
            [equation(first, s), equation(second, s)],
        ),
        10 | 11 => words([NONE, power(name)], [equation(second, s)]),
        _ => words([NONE], []),
    }
}

// Kinds 20 to 26: identifiers, constants, bool(p) and ∅.
fn leaf_rule(kind: usize, own: usize, name: usize) -> NodeWords
    requires { (20 ≤ kind) × (kind ≤ 26) × (own + 1 < 4096) × (name < 32) }
    ensures { (a b : ℕ) → RuleHeld kind own a b name result }
{
    let s = own + 1;
    match kind {
        20 => words([NONE], [equation(own, name)]),
        21 => words([power(s), atom(GIVEN + name)], []),
        22 => words([atom(GIVEN + name)], []),
        23 => words([atom(INTEGER)], []),
        24 | 25 => words([atom(BOOL)], []),
        _ => words([power(s), NONE], []),
    }
}

// Kinds 27 to 34: singletons, pairs and the sets made of sets.
fn set_rule(kind: usize, own: usize, first: usize, second: usize, name: usize) -> NodeWords
    requires { (27 ≤ kind) × (kind ≤ 34) × RuleRoom own first second name }
    ensures { RuleHeld kind own first second name result }
{
    let s = own + 1;
    match kind {
        27 => words([power(first)], []),
        28 => words([product(first, second)], []),
        29 | 30 | 31 => words(
            [power(s), NONE],
            [equation(first, own), equation(second, own)], // both operands have the node's type
        ),
        32 => words(
            [
                power(s + 2),
                NONE,
                NONE,
                product(s, s + 1),
                power(s),
                power(s + 1),
            ],
            [equation(first, s + 3), equation(second, s + 4)],
        ),
        33 => words([power(first), NONE, power(s)], [equation(first, s + 1)]),
        _ => words([power(name)], [equation(second, own)]),
    }
}

// Kinds 35 to 43: relations, numbers, BOOL and choice.
fn value_rule(kind: usize, own: usize, first: usize, second: usize) -> NodeWords
    requires { (35 ≤ kind) × (kind ≤ 43) × RuleRoom own first second 0 }
    ensures { (x : ℕ) → RuleHeld kind own first second x result }
{
    let s = own + 1;
    match kind {
        35 => words(
            [power(s), NONE, NONE, product(s, s + 1), power(s + 2)], // the first parts of the pairs
            [equation(first, s + 3)],
        ),
        36 => words(
            [power(s + 1), NONE, NONE, product(s, s + 1), power(s + 2)], // the second parts of the pairs
            [equation(first, s + 3)],
        ),
        37 => words(
            [NONE, product(second, own), power(s)],
            [equation(first, s + 1)],
        ),
        38 => words([atom(INTEGER), NONE, power(s)], [equation(first, s + 1)]),
        39 | 40 => words(
            [atom(INTEGER)],
            [equation(first, own), equation(second, own)],
        ),
        41 => words(
            [power(s), atom(INTEGER)],
            [equation(first, s), equation(second, s)],
        ),
        42 => words([power(s), atom(BOOL)], []),
        _ => words([NONE, power(own)], [equation(first, s)]),
    }
}

// An unknown kind says nothing of types.
fn rule(kind: usize, own: usize, first: usize, second: usize, name: usize) -> NodeWords
    requires { RuleRoom own first second name }
    ensures { RuleHeld kind own first second name result }
{
    match kind {
        1..=11 => condition_rule(kind, own, first, second, name),
        20..=26 => leaf_rule(kind, own, name),
        27..=34 => set_rule(kind, own, first, second, name),
        35..=43 => value_rule(kind, own, first, second),
        _ => words([NONE], []),
    }
}

// The two halves of an entry of `starts`, by the two functions of terms: one function with a flag would be no plainer.

// The variable of node n.
pub fn variable(starts: &[u32], n: usize) -> usize
    requires { n < length starts.now }
    ensures { result ≡ get_or starts.now n 0 % 4096 }
{
    terms::right_side(starts[n])
}

// How many equations come before those of node n.
pub fn equation_count(starts: &[u32], n: usize) -> usize
    requires { n < length starts.now }
    ensures { result ≡ get_or starts.now n 0 / 4096 }
{
    terms::left_side(starts[n])
}

// The variable of an operand, where a is one; else any number that has room in half a word, so that the rules need no Option for fields that
// their kinds do not have.
fn operand(starts: &[u32], n: usize, a: usize) -> usize
    requires { n < length starts.now }
    ensures { OperandVar starts.now n a result }
{
    if a < n {
        return variable(starts, a);
    }
    0
}

// An identifier or a given set, where a is one; else any number, likewise.
fn name_of(a: usize) -> usize
    ensures { (result < 32) × (a < 32 → result ≡ a) }
{
    if a < 32 {
        return a;
    }
    0
}

// The rule of node n.
fn node_rule(table: &[u8], at: usize, n: usize, starts: &[u32]) -> NodeWords
    requires { ReadyNode table.now at n starts.now }
    ensures { NodeRule (table_of table.now) n result }
{
    let kind = table::kind(table, at, n);
    let a = table::field(table, at, n, 0);
    let b = table::field(table, at, n, 1);
    rule(
        kind,
        variable(starts, n),
        operand(starts, n, a),
        operand(starts, n, b),
        name_of(a),
    )
}

// Adds node n. The three arrays are those of `build`, which is public and whose clauses name each: they go on as they came.
fn add_node(
    table: &[u8],
    at: usize,
    n: usize,
    shapes: &mut [u32],
    equations: &mut [u32],
    starts: &mut [u32],
)
    requires { NextNode table.now at n shapes.old equations.old starts.old }
    ensures { Constrained (table_of table.now) (n + 1) shapes.new equations.new starts.new }
{
    let node = node_rule(table, at, n, starts);
    let v = variable(starts, n);
    let m = equation_count(starts, n);
    shapes[v..v + SHAPES].copy_from_slice(&node.shapes);
    equations[m..m + EQUATIONS].copy_from_slice(&node.equations);
    starts[n + 1] = starts[n] + node.count;
}

// The constraints of a readable table, whose node records begin at `at`: the shapes of its variables, its equations, and for each node its
// variable and how many equations come before its own.
pub fn build(table: &[u8], at: usize, shapes: &mut [u32], equations: &mut [u32], starts: &mut [u32])
    requires { Fielded table.now at × NodeRoom (node_count table.now) shapes.old equations.old starts.old }
    ensures { Constrained (table_of table.now) (node_count table.now) shapes.new equations.new starts.new }
{
    let names = table::identifiers(table);
    shapes[..names].fill(NONE);
    starts[0] = names as u32;
    for n in 0..table::nodes(table) {
        add_node(table, at, n, shapes, equations, starts);
    }
}
