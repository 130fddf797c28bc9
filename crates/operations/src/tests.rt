// Kinds 6 to 9: tests of two operands, at a and b.
ghost use Rattle.rules.specs.Kinds.{equal, member, subset};
ghost use Rattle.operations.specs.Outcomes.{SomeOperands, TestDone, NumbersTold};

// 6: the operands are the same.
pub fn equal(s: &[u64], a: usize, b: usize) -> Option<bool>
    requires { SomeOperands s.now a b }
    ensures { TestDone equal s.now a b result }
{
    if !fitting::alike(s, a, b) {
        return None;
    }
    let end = sets::value_end(s, a);
    Some(arena::same(s, a, end, b))
}

// 7 and 8 ask different tests of types and of members: one function would take both as closures, which is no plainer.

// 7: the first is a member of the second.
pub fn member(s: &[u64], a: usize, b: usize) -> Option<bool>
    requires { SomeOperands s.now a b }
    ensures { TestDone member s.now a b result }
{
    if !fitting::belongs(s, a, b) {
        return None;
    }
    Some(sets::contains(s, a, b))
}

// 8: the members of the first are members of the second.
pub fn subset(s: &[u64], a: usize, b: usize) -> Option<bool>
    requires { SomeOperands s.now a b }
    ensures { TestDone subset s.now a b result }
{
    if !fitting::alike_sets(s, a, b) {
        return None;
    }
    Some(sets::included(s, a, b))
}

// 6 and 9 on the cells of two numbers, which stand in the numbers' order. No other test takes numbers.
pub fn numbers(kind: usize, x: u64, y: u64) -> Option<bool>
    ensures { NumbersTold kind x y result }
{
    match kind {
        6 => Some(x == y),
        9 => Some(x <= y),
        _ => None,
    }
}
