// A visit of a node of a readable table: what the evaluators answer, and what they do at a node without calling each other. Parameters stay
// apart, as in the evaluators.
#![tactic(auto)]

ghost use Rattle.std.specs.Prelude.{true, List, ◌≡◌, ℕ, ◌<◌, IfSome};
ghost use Rattle.rules.specs.Tables.{node_count};
ghost use Rattle.rules.specs.Readable.{Readable};
ghost use Rattle.visits.specs.declared.Held.TheVariants.{Refused};
ghost use Rattle.visits.specs.declared.Formed.TheVariants.{Stopped};
ghost use Rattle.visits.specs.Answers.{RefusalOf, StopOf, turned_by, SettleReady};
ghost use Rattle.visits.specs.Nodes.{IsPred, DecidesBy, JoinedBy, SomeGood, RangeAt, StandingReady, PlacedLeaf, PlaceReady, PlaceAt, FunctionLeaf, LeafNode, LeafFormed};
ghost use Rattle.visits.specs.Cycle.{Visited, Bares, Settles, StandingTwo};

use operations::Outcome;
use reading::Refusal;

// The truth of a condition, or a refusal; and the visits that the budget still has. Held and Formed are enums of their own (project rule: an operand's
// answer is taken apart by let .. else): so each has its function that refuses, and one that passes on the refusal of the other.
#[derive(Drop)]
pub enum Held {
    Truth { yes: bool, left: u32 },
    Refused { refusal: Refusal, left: u32 },
}

// Where the value of an expression stands and where the cells that it takes end, or a refusal; and the visits that the budget still has.
#[derive(Drop)]
pub enum Formed {
    Value { at: usize, end: usize, left: u32 },
    Stopped { refusal: Refusal, left: u32 },
}

// Where two operands stand, and whether the first is known to be a function.
#[derive(Drop)]
pub struct Places {
    pub first: usize,
    pub second: usize,
    pub known: bool,
}

// An entry of the environment is the place of a value, and FUNCTION more where that is known to be a function. Places are below it. One word for an
// identifier (no heap, fixed memory): the environment of a binder's body is copied.
pub const FUNCTION: u32 = 65536;

pub fn refused(number: usize, place: usize, left: u32) -> Held
    ensures { result ≡ Refused (record { number = number; place = place }) left }
{
    Held::Refused {
        refusal: Refusal { number, place },
        left,
    }
}

pub fn stopped(number: usize, place: usize, left: u32) -> Formed
    ensures { result ≡ Stopped (record { number = number; place = place }) left }
{
    Formed::Stopped {
        refusal: Refusal { number, place },
        left,
    }
}

// The refusal of an expression as that of a condition.
pub fn refusal_of(f: Formed) -> Held
    ensures { RefusalOf f result }
{
    match f {
        Formed::Stopped { refusal, left } => Held::Refused { refusal, left },
        // Never: it is called for a refusal.
        Formed::Value {
            at: _,
            end: _,
            left,
        } => Held::Truth { yes: false, left },
    }
}

// The refusal of a condition as that of an expression.
pub fn stop_of(h: Held) -> Formed
    ensures { StopOf h result }
{
    match h {
        Held::Refused { refusal, left } => Formed::Stopped { refusal, left },
        // Never: it is called for a refusal.
        Held::Truth { yes: _, left } => Formed::Value {
            at: 0,
            end: 0,
            left,
        },
    }
}

// A condition below its negations: its node, the visits left for it, and whether its truth is to be turned.
#[derive(Drop)]
pub struct Bare {
    pub node: usize,
    pub left: u32,
    pub turned: bool,
}

// Passes the negations from a condition's node down, a visit for each, while one is left.
pub fn strip(table: &[u8], node: usize, left: u32) -> Bare
    requires { Readable table.now × (node < node_count table.now) × IsPred table.now node }
    ensures { Bares table.now node left result }
{
    let mut n = node;
    let mut l = left;
    let mut turned = false;
    // No range: the visits that are left belong to the answer.
    while l > 0 && table::node_kind(table, n) == 4 {
        n = table::node_field(table, n, 0);
        l -= 1;
        turned = !turned;
    }
    Bare {
        node: n,
        left: l,
        turned,
    }
}

// The answer for the condition above the negations.
pub fn turn(held: Held, turned: bool) -> Held
    ensures { result ≡ turned_by turned held }
{
    match held {
        Held::Truth { yes, left } => Held::Truth {
            yes: yes != turned,
            left,
        },
        Held::Refused { refusal, left } => Held::Refused { refusal, left },
    }
}

// Kinds stay numbers (project rule: decisions by match on their codes and ranges).

// The truth of a join that its first operand decides alone, if it does: false for 1, true for 2 and 3.
pub fn decides(kind: usize, p: bool) -> Option<bool>
    ensures { DecidesBy kind p result }
{
    match kind {
        1 => (!p).then_some(false),
        2 => p.then_some(true),
        3 => (!p).then_some(true),
        _ => None,
    }
}

// The truth of a join of two truths.
pub fn joined(kind: usize, p: bool, q: bool) -> bool
    ensures { JoinedBy kind p q result }
{
    match kind {
        1 => p && q,
        2 => p || q,
        3 => !p || q,
        _ => p == q,
    }
}

// How many members the value at `at` has, if it is a set.
pub fn range_of(s: &[u64], at: usize) -> Option<u64>
    requires { SomeGood s.now at }
    ensures { RangeAt s.now at result }
{
    if !fitting::is_set(s, at) {
        return None;
    }
    Some(arena::low(s[at]))
}

// Where the value of an identifier (20) stands, or that of a constant of one cell, which has the cell of its node.
pub fn standing(table: &[u8], env: &[u32; 32], kind: usize, node: usize) -> usize
    requires { StandingReady table.now env.now kind node }
    ensures { PlacedLeaf table.now env.now node result }
{
    if kind != 20 {
        return node;
    }
    let x = table::node_field(table, node, 0);
    (env[x] % FUNCTION) as usize
}

// The same for the operand at a node, if it is of these kinds.
pub fn leaf_place(table: &[u8], env: &[u32; 32], node: usize) -> Option<usize>
    requires { PlaceReady table.now env.now node }
    ensures { PlaceAt table.now env.now node result }
{
    let kind = table::node_kind(table, node);
    match kind {
        20 | 22..=24 => Some(standing(table, env, kind, node)),
        _ => None,
    }
}

// 21 and 42
pub fn eval_leaf(
    table: &[u8],
    s: &mut [u64],
    top: usize,
    kind: usize,
    node: usize,
    left: u32,
) -> Formed
    requires { LeafNode table.now s.old top kind node }
    ensures { LeafFormed table.now s.old top kind node left s.new result }
{
    let a = table::node_field(table, node, 0);
    let size = table::size(table, a);
    let end = operations::leaf(s, kind, a as u64, size as u64, top);
    Formed::Value { at: top, end, left }
}

// What a node gives, or the number of its refusal, which may be any: a value that has been built above is copied down to top, one within an
// operand stays.
pub fn settle(
    s: &mut [u64],
    r: Result<Outcome, usize>,
    mid: usize,
    next: usize,
    top: usize,
    node: usize,
    left: u32,
) -> Formed
    requires { SettleReady s.old r mid next top }
    ensures { Settles s.old r mid next top node left s.new result }
{
    let outcome = match r {
        Ok(outcome) => outcome,
        Err(number) => return stopped(number, node, left),
    };
    match outcome {
        Outcome::Within(at) => Formed::Value { at, end: mid, left },
        Outcome::Cell(cell) => {
            let end = products::put_cell(s, top, cell);
            Formed::Value { at: top, end, left }
        }
        Outcome::Built(end) => {
            // Operands that stand already take no cells: then the value has been built at top.
            if next == top {
                return Formed::Value { at: top, end, left };
            }
            let n = end - next;
            arena::copy_forward(s, next, n, top);
            Formed::Value {
                at: top,
                end: top + n,
                left,
            }
        }
    }
}

// Whether the operand at a node is an identifier whose value is known to be a function.
pub fn is_marked(table: &[u8], env: &[u32; 32], node: usize) -> bool
    requires { PlaceReady table.now env.now node }
    ensures { result ≡ true → FunctionLeaf table.now env.now node }
{
    table::node_kind(table, node) == 20 && env[table::node_field(table, node, 0)] >= FUNCTION
}

// Where the operands of an operation that builds nothing stand, and whether the first is known to be a function; if they stand already and
// there are visits for all three nodes.
pub fn standing_two(
    table: &[u8],
    env: &[u32; 32],
    kind: usize,
    node: usize,
    left: u32,
) -> Option<Places>
    requires { (s : List ℕ) × (top : ℕ) × Visited table.now env.now s top kind node left }
    ensures { IfSome result (λ p. StandingTwo table.now env.now kind node left p) }
{
    if left < 3 || !operations::is_light(kind) {
        return None;
    }
    let b = table::node_field(table, node, 1);
    let second = leaf_place(table, env, b)?;
    let a = table::node_field(table, node, 0);
    let first = leaf_place(table, env, a)?;
    let known = is_marked(table, env, a);
    Some(Places {
        first,
        second,
        known,
    })
}
