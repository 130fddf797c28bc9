// The evaluators: the value rules of document 01 at each node of a readable table, over an arena of cells, by the codes of kinds (project rule).
// Their parameters stay apart: each call changes three of the six, so a struct of all would be made anew for each; table and environment, which most
// calls pass on, are two only, and the arena is written, so contracts speak of it before and after.
#![tactic(auto)]

ghost use Rattle.std.specs.Prelude.{◌<◌, ◌≡◌};
ghost use Rattle.rules.specs.Kinds.{join, test, quant, one, two};
ghost use Rattle.visits.specs.Answers.{numbered};
ghost use Rattle.visits.specs.Nodes.{IsPred, IsExpr, NoNegation, quant_of};
ghost use Rattle.visits.specs.Cycle.{NodeReady, Visited, Sort, EvaluatesP, EvaluatesE, EachReady, EvaluatesEach, EvaluatesChosen};

use operations::{Lack, Outcome};
use visits::{Formed, Held};

// What an operation answers, a refusal by its number: `visits::settle` takes any number.
fn numbered(r: Result<Outcome, Lack>) -> Result<Outcome, usize>
    ensures { result ≡ numbered r }
{
    r.map_err(usize::from)
}

// The condition at a node. The compiler inlines nothing into a function that calls itself: so this calls `eval_bare`, which calls it.
#[cycle(evaluators)]
pub fn eval_pred(
    table: &[u8],
    env: &[u32; 32],
    s: &mut [u64],
    top: usize,
    node: usize,
    left: u32,
) -> Held
    requires { NodeReady table.now env.now s.old top node × IsPred table.now node }
    ensures { EvaluatesP table.now env.now s.old top node left s.new result }
{
    let b = visits::strip(table, node, left);
    let held = eval_bare(table, env, s, top, b.node, b.left);
    visits::turn(held, b.turned)
}

// A condition that is no negation, or for which no visit is left.
#[cycle(evaluators)]
fn eval_bare(
    table: &[u8],
    env: &[u32; 32],
    s: &mut [u64],
    top: usize,
    node: usize,
    left: u32,
) -> Held
    requires { NodeReady table.now env.now s.old top node × IsPred table.now node × (0 < left → NoNegation table.now node) }
    ensures { EvaluatesP table.now env.now s.old top node left s.new result }
{
    if left == 0 {
        return visits::refused(19, node, left);
    }
    let kind = table::node_kind(table, node);
    match kind {
        1..=11 => match kind {
            6..=9 => eval_test(table, env, s, top, kind, node, left),
            10..=11 => eval_quant(table, env, s, top, kind, node, left),
            _ => eval_join(table, env, s, top, kind, node, left),
        },
        // Never: no other kind is a predicate.
        _ => visits::refused(6, node, left),
    }
}

// 1, 2, 3 and 5
#[cycle(evaluators)]
fn eval_join(
    table: &[u8],
    env: &[u32; 32],
    s: &mut [u64],
    top: usize,
    kind: usize,
    node: usize,
    left: u32,
) -> Held
    requires { Visited table.now env.now s.old top kind node left × Sort join kind }
    ensures { EvaluatesP table.now env.now s.old top node left s.new result }
{
    let a = table::node_field(table, node, 0);
    let first = eval_pred(table, env, s, top, a, left - 1);
    let Held::Truth { yes: p, left: n } = first else {
        return first;
    };
    if let Some(yes) = visits::decides(kind, p) {
        return Held::Truth { yes, left: n };
    }
    let b = table::node_field(table, node, 1);
    let second = eval_pred(table, env, s, top, b, n);
    let Held::Truth { yes: q, left: m } = second else {
        return second;
    };
    Held::Truth {
        yes: visits::joined(kind, p, q),
        left: m,
    }
}

// 6 to 9
#[cycle(evaluators)]
fn eval_test(
    table: &[u8],
    env: &[u32; 32],
    s: &mut [u64],
    top: usize,
    kind: usize,
    node: usize,
    left: u32,
) -> Held
    requires { Visited table.now env.now s.old top kind node left × Sort test kind }
    ensures { EvaluatesP table.now env.now s.old top node left s.new result }
{
    let a = table::node_field(table, node, 0);
    let first = operand(table, env, s, top, a, left - 1);
    let Formed::Value {
        at: x,
        end: mid,
        left: n,
    } = first
    else {
        return visits::refusal_of(first);
    };
    let b = table::node_field(table, node, 1);
    let second = operand(table, env, s, mid, b, n);
    let Formed::Value {
        at: y,
        end: next,
        left: m,
    } = second
    else {
        return visits::refusal_of(second);
    };
    let Some(yes) = operations::test(s, kind, x, y) else {
        return visits::refused(15, node, m);
    };
    Held::Truth { yes, left: m }
}

// 10 and 11
#[cycle(evaluators)]
fn eval_quant(
    table: &[u8],
    env: &[u32; 32],
    s: &mut [u64],
    top: usize,
    kind: usize,
    node: usize,
    left: u32,
) -> Held
    requires { Visited table.now env.now s.old top kind node left × Sort quant kind }
    ensures { EvaluatesP table.now env.now s.old top node left s.new result }
{
    let a = table::node_field(table, node, 1);
    let first = operand(table, env, s, top, a, left - 1);
    let Formed::Value {
        at,
        end: next,
        left: n,
    } = first
    else {
        return visits::refusal_of(first);
    };
    let Some(count) = visits::range_of(s, at) else {
        return visits::refused(15, node, n);
    };
    each_member(table, env, s, next, kind == 10, node, at + 1, count, n)
}

// The body of a quantifier at each of `count` members from `from` on, whose places follow from their lengths; the first that decides ends it.
#[cycle(evaluators)]
fn each_member(
    table: &[u8],
    env: &[u32; 32],
    s: &mut [u64],
    top: usize,
    all: bool,
    node: usize,
    from: usize,
    count: u64,
    left: u32,
) -> Held
    requires { EachReady table.now env.now s.old top node from count 0 }
    ensures { EvaluatesEach table.now env.now s.old top node from count left (quant_of all) s.new result }
{
    let x = table::node_field(table, node, 0);
    let body = table::node_field(table, node, 2);
    let mut inner = *env;
    let mut at = from;
    let mut n = left;
    for _turn in 0..count {
        inner[x] = at as u32;
        let held = eval_pred(table, &inner, s, top, body, n);
        let Held::Truth { yes, left: m } = held else {
            return held;
        };
        if yes != all {
            return Held::Truth { yes, left: m };
        }
        n = m;
        at = arena::end_of(s, at);
    }
    Held::Truth { yes: all, left: n }
}

// The operand at a node. A call costs more than the visit of an identifier or a constant, so that is made here. The function stays small
// enough to be inlined.
#[cycle(evaluators)]
fn operand(
    table: &[u8],
    env: &[u32; 32],
    s: &mut [u64],
    top: usize,
    node: usize,
    left: u32,
) -> Formed
    requires { NodeReady table.now env.now s.old top node × IsExpr table.now node }
    ensures { EvaluatesE table.now env.now s.old top node left s.new result }
{
    match visits::leaf_place(table, env, node) {
        Some(at) if left > 0 => Formed::Value {
            at,
            end: top,
            left: left - 1,
        },
        _ => eval_expr(table, env, s, top, node, left),
    }
}

// The expression at a node. It calls `eval_value`, which calls it, as `eval_pred` does.
#[cycle(evaluators)]
fn eval_expr(
    table: &[u8],
    env: &[u32; 32],
    s: &mut [u64],
    top: usize,
    node: usize,
    left: u32,
) -> Formed
    requires { NodeReady table.now env.now s.old top node × IsExpr table.now node }
    ensures { EvaluatesE table.now env.now s.old top node left s.new result }
{
    eval_value(table, env, s, top, node, left)
}

// The expression at a node, by its kind. Operands that stand already have no answers, which would go through memory, where the operation
// builds nothing.
#[cycle(evaluators)]
fn eval_value(
    table: &[u8],
    env: &[u32; 32],
    s: &mut [u64],
    top: usize,
    node: usize,
    left: u32,
) -> Formed
    requires { NodeReady table.now env.now s.old top node × IsExpr table.now node }
    ensures { EvaluatesE table.now env.now s.old top node left s.new result }
{
    if left == 0 {
        return visits::stopped(19, node, left);
    }
    let kind = table::node_kind(table, node);
    if let Some(p) = visits::standing_two(table, env, kind, node, left) {
        let r = operations::light(s, kind, p.first, p.second, p.known);
        return visits::settle(s, numbered(r), top, top, top, node, left - 3);
    }
    match kind {
        25 => eval_bool(table, env, s, top, node, left),
        27 | 33 | 35 | 36 | 38 | 43 => eval_one(table, env, s, top, kind, node, left),
        28..=32 | 37 | 39..=41 => eval_two(table, env, s, top, kind, node, left),
        34 => eval_select(table, env, s, top, node, left),
        21 | 42 => visits::eval_leaf(table, s, top, kind, node, left - 1),
        20..=43 => Formed::Value {
            at: visits::standing(table, env, kind, node),
            end: top,
            left: left - 1,
        },
        // Never: no other kind is an expression.
        _ => visits::stopped(6, node, left),
    }
}

// 25
#[cycle(evaluators)]
fn eval_bool(
    table: &[u8],
    env: &[u32; 32],
    s: &mut [u64],
    top: usize,
    node: usize,
    left: u32,
) -> Formed
    requires { Visited table.now env.now s.old top 25 node left }
    ensures { EvaluatesE table.now env.now s.old top node left s.new result }
{
    let a = table::node_field(table, node, 0);
    let held = eval_pred(table, env, s, top, a, left - 1);
    let Held::Truth { yes, left: n } = held else {
        return visits::stop_of(held);
    };
    let end = products::put_cell(s, top, arena::TRUTH + yes as u64);
    Formed::Value {
        at: top,
        end,
        left: n,
    }
}

// 27, 33, 35, 36, 38 and 43
#[cycle(evaluators)]
fn eval_one(
    table: &[u8],
    env: &[u32; 32],
    s: &mut [u64],
    top: usize,
    kind: usize,
    node: usize,
    left: u32,
) -> Formed
    requires { Visited table.now env.now s.old top kind node left × Sort one kind }
    ensures { EvaluatesE table.now env.now s.old top node left s.new result }
{
    let a = table::node_field(table, node, 0);
    let first = operand(table, env, s, top, a, left - 1);
    let Formed::Value {
        at,
        end: next,
        left: n,
    } = first
    else {
        return first;
    };
    let r = operations::one(s, kind, at, next);
    visits::settle(s, numbered(r), next, next, top, node, n)
}

// 28 to 32, 37 and 39 to 41
#[cycle(evaluators)]
fn eval_two(
    table: &[u8],
    env: &[u32; 32],
    s: &mut [u64],
    top: usize,
    kind: usize,
    node: usize,
    left: u32,
) -> Formed
    requires { Visited table.now env.now s.old top kind node left × Sort two kind }
    ensures { EvaluatesE table.now env.now s.old top node left s.new result }
{
    let a = table::node_field(table, node, 0);
    let first = operand(table, env, s, top, a, left - 1);
    let Formed::Value {
        at: x,
        end: mid,
        left: n,
    } = first
    else {
        return first;
    };
    let b = table::node_field(table, node, 1);
    let second = operand(table, env, s, mid, b, n);
    let Formed::Value {
        at: y,
        end: next,
        left: m,
    } = second
    else {
        return second;
    };
    let r = operations::two(s, kind, x, y, next);
    visits::settle(s, numbered(r), mid, next, top, node, m)
}

// 34
#[cycle(evaluators)]
fn eval_select(
    table: &[u8],
    env: &[u32; 32],
    s: &mut [u64],
    top: usize,
    node: usize,
    left: u32,
) -> Formed
    requires { Visited table.now env.now s.old top 34 node left }
    ensures { EvaluatesE table.now env.now s.old top node left s.new result }
{
    let a = table::node_field(table, node, 1);
    let first = operand(table, env, s, top, a, left - 1);
    let Formed::Value {
        at,
        end: next,
        left: n,
    } = first
    else {
        return first;
    };
    let Some(count) = visits::range_of(s, at) else {
        return visits::stopped(15, node, n);
    };
    let chosen = each_chosen(table, env, s, next, node, at + 1, count, n);
    let Formed::Value {
        at: _,
        end,
        left: m,
    } = chosen
    else {
        return chosen;
    };
    visits::settle(s, Ok(Outcome::Built(end)), next, next, top, node, m)
}

// The members, of `count` from `from` on, at which the body holds, as a set built at top.
#[cycle(evaluators)]
fn each_chosen(
    table: &[u8],
    env: &[u32; 32],
    s: &mut [u64],
    top: usize,
    node: usize,
    from: usize,
    count: u64,
    left: u32,
) -> Formed
    requires { EachReady table.now env.now s.old top node from count 256 }
    ensures { EvaluatesChosen table.now env.now s.old top node from count left s.new result }
{
    let x = table::node_field(table, node, 0);
    let body = table::node_field(table, node, 2);
    let mut inner = *env;
    let mut at = from;
    let mut n = left;
    let mut to = top + 1;
    let mut chosen: u64 = 0;
    for _turn in 0..count {
        inner[x] = at as u32;
        let held = eval_pred(table, &inner, s, to, body, n);
        let Held::Truth { yes, left: m } = held else {
            return visits::stop_of(held);
        };
        n = m;
        let end = arena::end_of(s, at);
        to = arena::copy_if(s, at, end, yes, to);
        chosen += yes as u64;
        at = end;
    }
    s[top] = arena::SET + chosen;
    Formed::Value {
        at: top,
        end: to,
        left: n,
    }
}
