// The constants of one cell of a readable table, put into the arena before it is evaluated; and whether any of its nodes builds a value there.
#![tactic(auto)]

ghost use Rattle.std.specs.Prelude.{◌≡◌, ◌≤◌, ◌<◌, length};
ghost use Rattle.rules.specs.Tables.{node_count, nodes_at};
ghost use Rattle.rules.specs.Readable.{Readable};
ghost use Rattle.rules.specs.Kinds.{kind_of};
ghost use Rattle.constants.specs.Leaves.{Narrow, scalar_cell};
ghost use Rattle.constants.specs.Built.{built, DecidesBuilds};
ghost use Rattle.constants.specs.Constants.{CellOf, Constants, OnlyBelow};

// By the codes of kinds (project rule).

// The cell of an element (22), an integer (23) or a truth (24). An integer's word is in two's complement, its cell in excess form.
fn scalar_cell(kind: usize, a: u64, b: u64) -> u64
    requires { Narrow kind a b }
    ensures { result ≡ scalar_cell kind a b }
{
    match kind {
        22 => arena::ELEMENT + arena::GIVEN * a + b,
        23 => arena::NUMBER + (a + arena::EXCESS) % arena::CELL,
        _ => arena::TRUTH + a,
    }
}

// The cell of the constant at node n: kinds 22 to 24 and 26. Another node has 0, and no Option, since each node's cell is written.
fn constant_cell(table: &[u8], at: usize, n: usize) -> u64
    requires { Readable table.now × (at ≡ nodes_at table.now) × (n < node_count table.now) }
    ensures { CellOf table.now n result }
{
    let kind = table::kind(table, at, n);
    match kind {
        22..=24 => {
            let a = table::field(table, at, n, 0);
            let b = table::field(table, at, n, 1);
            scalar_cell(kind, a as u64, b as u64)
        }
        26 => arena::SET,
        _ => 0,
    }
}

// Puts each constant into the cell of its node.
pub fn put_constants(table: &[u8], s: &mut [u64])
    requires { Readable table.now × (node_count table.now ≤ length s.old) }
    ensures { Constants table.now (node_count table.now) s.new ×
        OnlyBelow (node_count table.now) s.old s.new }
{
    let at = table::nodes_offset(table);
    for n in 0..table::nodes(table) {
        s[n] = constant_cell(table, at, n);
    }
}

// Whether the value of a node of the kind is built at its visit.
fn is_built(kind: usize) -> bool
    ensures { result ≡ built (kind_of kind) }
{
    matches!(kind, 21 | 25 | 27..=43)
}

// Whether any node's value is.
pub fn builds(table: &[u8]) -> bool
    requires { Readable table.now }
    ensures { DecidesBuilds table.now result }
{
    let at = table::nodes_offset(table);
    (0..table::nodes(table)).any(|n| is_built(table::kind(table, at, n)))
}
