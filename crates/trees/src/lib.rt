// The tree of a table's nodes, refusals 7 and 8: how often each node is a child, and how high it stands.
#![tactic(auto)]

ghost use Rattle.rules.specs.Readable.{Header};
ghost use Rattle.std.specs.Prelude.{◌≡◌, cond, ◌+◌, ◌<◌, length, get_or};
ghost use Rattle.rules.specs.Kinds.{is_child};
ghost use Rattle.rules.specs.Tables.{table_of, node_at, held, held_in, node_count};
ghost use Rattle.rules.specs.Ends.{least_failing};
ghost use Rattle.rules.specs.Reading.{parent_good, height_good, occurrences, tallest};
ghost use Rattle.table.specs.Places.{found_place};
ghost use Rattle.table.specs.Codes.{field_of};
ghost use Rattle.table.specs.Layout.{NodeIn, Fielded};
ghost use Rattle.trees.specs.Arrays.{root_height, Usable, Room, Bumped, Counted, Heights};
ghost use Rattle.std.specs.Option.{unwrap_or};

use table::{NodeCategory, NodeField};

// Arrays of 512, an entry for each node (fixed memory). They are slices with a length asked for, as in `set_heights` and `root_height`: a type of that
// length would ask more of callers.

// Counts what a field holds, if that is a child.
fn count_field(field: NodeField, counted: &mut [u16])
    requires { Usable field × (length counted.old ≡ 512) × Room counted.old }
    ensures { Bumped counted.old (is_child (field_of field.holds)) field.word counted.new }
{
    if field.holds.is_child() {
        counted[field.word] += 1;
    }
}

// Counts the fields of one node.
fn count_node(table: &[u8], at: usize, n: usize, counted: &mut [u16])
    requires { Fielded table.now at × (n < node_count table.now) × (length counted.old ≡ 512) × Counted table.now n counted.old }
    ensures { Counted table.now (n + 1) counted.new }
{
    let fields = table::node_fields(table, at, n);
    count_field(fields.a, counted);
    count_field(fields.b, counted);
    count_field(fields.c, counted);
}

// How often each node is a child.
fn count_nodes(table: &[u8], at: usize, counted: &mut [u16])
    requires { Fielded table.now at × (length counted.old ≡ 512) × Counted table.now 0 counted.old }
    ensures { Counted table.now (node_count table.now) counted.new }
{
    for n in 0..table::nodes(table) {
        count_node(table, at, n, counted);
    }
}

// Refusal 7 at one node, by how often each node is a child.
fn parent_is_good(table: &[u8], at: usize, n: usize, counted: &[u16]) -> bool
    requires { NodeIn table.now at n × (length counted.now ≡ 512) × Counted table.now (node_count table.now) counted.now }
    ensures { result ≡ parent_good (table_of table.now) n }
{
    if n + 1 == table::nodes(table) {
        return table::category(table::kind(table, at, n)) == Some(NodeCategory::Predicate);
    }
    counted[n] == 1
}

// Refusal 7: the least node with a fault.
pub fn first_bad_parent(table: &[u8], at: usize) -> Option<usize>
    requires { Fielded table.now at }
    ensures { found_place result ≡ least_failing (parent_good (table_of table.now)) 0 (node_count table.now) }
{
    let mut counted = [0u16; 512];
    count_nodes(table, at, &mut counted);
    (0..table::nodes(table)).find(|n| !parent_is_good(table, at, *n, &counted))
}

// The height of the child in a field, or 0 where the field holds none: the least for `max`, and what the clause names (`cond`).
fn child_height(field: NodeField, heights: &[u8]) -> u8
    requires { Usable field × (length heights.now ≡ 512) }
    ensures { result ≡ cond (is_child (field_of field.holds)) (get_or heights.now field.word 0) 0 }
{
    if field.holds.is_child() {
        heights[field.word]
    } else {
        0
    }
}

// The greatest height of a node's children.
fn tallest_child(table: &[u8], at: usize, n: usize, heights: &[u8]) -> u8
    requires { Fielded table.now at × (n < node_count table.now) × (length heights.now ≡ 512) }
    ensures { result ≡ tallest (λ m. get_or heights.now m 0) (held is_child (node_at (table_of table.now).nodes n)) }
{
    let fields = table::node_fields(table, at, n);
    let a = child_height(fields.a, heights);
    let b = child_height(fields.b, heights);
    let c = child_height(fields.c, heights);
    a.max(b.max(c))
}

// Refusal 8: no node is higher.
const HEIGHT_LIMIT: u8 = 27;

// Refusal 8: the least node whose height is above the limit. Sets the heights of the nodes below it, or of all.
pub fn set_heights(table: &[u8], at: usize, heights: &mut [u8]) -> Option<usize>
    requires { Fielded table.now at × (length heights.old ≡ 512) }
    ensures { (found_place result ≡ least_failing (height_good (table_of table.now)) 0 (node_count table.now)) ×
        Heights table.now (unwrap_or result (node_count table.now)) heights.new }
{
    for n in 0..table::nodes(table) {
        let h = tallest_child(table, at, n, heights);
        if HEIGHT_LIMIT <= h {
            return Some(n);
        }
        heights[n] = h + 1;
    }
    None
}

// The height of the root by those of all nodes, 0 where there is none, as the definition of that name has it.
pub fn root_height(table: &[u8], heights: &[u8]) -> usize
    requires { Header table.now × (length heights.now ≡ 512) × Heights table.now (node_count table.now) heights.now }
    ensures { result ≡ root_height (table_of table.now) }
{
    match table::nodes(table) {
        0 => 0,
        count => usize::from(heights[count - 1]),
    }
}
