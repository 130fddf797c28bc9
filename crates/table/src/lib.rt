// A table's words and records, and refusals 1 to 6.
#![tactic(auto)]

ghost use Rattle.std.specs.Prelude.{◌≡◌, ◌&&◌, ◌+◌, ◌<◌, ◌≤◌, ltb, length, get_or};
ghost use Rattle.rules.specs.Kinds.{kind_of, is_child};
ghost use Rattle.rules.specs.Tables.{word_at, table_of, node_at, kind_at, field_words};
ghost use Rattle.rules.specs.Tables.{given_count, identifier_count, node_count, nodes_at};
ghost use Rattle.rules.specs.Ends.{least_failing};
ghost use Rattle.rules.specs.Readable.{Header};
ghost use Rattle.rules.specs.Reading.{headed, limited, laid_out, size_good, bind_good, category_is, node_good, field_good};
ghost use Rattle.table.specs.Codes.{field_of, row_of, DigitHolds, DigitOf, HoldsOf, category_in_rules, category_if};
ghost use Rattle.table.specs.Layout.{Laid, NodeIn, field_codes_at, FieldOf, FieldsOf, WordOf};
ghost use Rattle.table.specs.Places.{found_place};

// What the fields a, b and c of each kind code hold, a hexadecimal digit each: 0 nothing, 1 a predicate, 2 an expression,
// 3 an identifier used, 4 an identifier bound, 5 a given set, 6 an element of that given set, 7 any word, 8 a truth.
// The digits stay numbers (project rule: a constant table): it is made anew where it is read, so a kind is one word, read once a node.
const FIELDS: [u16; 44] = [
    0x000, // 0 unknown
    0x110, // 1 ∧: a predicate, a predicate
    0x110, // 2 ∨: a predicate, a predicate
    0x110, // 3 ⇒: a predicate, a predicate
    0x100, // 4 ¬: a predicate
    0x110, // 5 ⇔: a predicate, a predicate
    0x220, // 6 =: an expression, an expression
    0x220, // 7 ∈: an expression, an expression
    0x220, // 8 ⊆: an expression, an expression
    0x220, // 9 ≤: an expression, an expression
    0x421, // 10 ∀: an identifier bound, an expression, a predicate
    0x421, // 11 ∃: an identifier bound, an expression, a predicate
    0x000, // 12 unknown
    0x000, // 13 unknown
    0x000, // 14 unknown
    0x000, // 15 unknown
    0x000, // 16 unknown
    0x000, // 17 unknown
    0x000, // 18 unknown
    0x000, // 19 unknown
    0x300, // 20 identifier: an identifier used
    0x500, // 21 given set: a given set
    0x560, // 22 element: a given set, an element of it
    0x700, // 23 integer: any word
    0x800, // 24 truth constant: a truth
    0x100, // 25 bool(p): a predicate
    0x000, // 26 ∅
    0x200, // 27 {e}: an expression
    0x220, // 28 pair: an expression, an expression
    0x220, // 29 ∪: an expression, an expression
    0x220, // 30 ∩: an expression, an expression
    0x220, // 31 difference of sets: an expression, an expression
    0x220, // 32 product: an expression, an expression
    0x200, // 33 power: an expression
    0x421, // 34 comprehension: an identifier bound, an expression, a predicate
    0x200, // 35 dom: an expression
    0x200, // 36 ran: an expression
    0x220, // 37 application: an expression, an expression
    0x200, // 38 card: an expression
    0x220, // 39 sum: an expression, an expression
    0x220, // 40 difference: an expression, an expression
    0x220, // 41 interval: an expression, an expression
    0x000, // 42 the set BOOL
    0x200, // 43 choice: an expression
];

// What a node stands for.
#[derive(Clone, Copy, PartialEq, Eq, Debug)]
pub enum NodeCategory {
    Predicate,
    Expression,
}

// What a field of a node holds, in the order of the digits: so no digit is looked up. (With one variant for a child of either
// category, reading a table took two fifths more time.)
#[derive(Clone, Copy, PartialEq, Eq, Debug)]
pub enum Holds {
    Nothing,
    Predicate,
    Expression,
    IdentifierUsed,
    IdentifierBound,
    GivenSet,
    Element,
    AnyWord,
    Truth,
}

impl Holds {
    pub fn is_child(self) -> bool
        ensures { result ≡ is_child (field_of self) }
    {
        matches!(self, Holds::Predicate | Holds::Expression)
    }
}

// By the digit of a kind's row.
impl From<u16> for Holds {
    ghost from_gives = { DigitHolds };

    fn from(digit: u16) -> Holds {
        match digit {
            1 => Holds::Predicate,
            2 => Holds::Expression,
            3 => Holds::IdentifierUsed,
            4 => Holds::IdentifierBound,
            5 => Holds::GivenSet,
            6 => Holds::Element,
            7 => Holds::AnyWord,
            8 => Holds::Truth,
            _ => Holds::Nothing,
        }
    }
}

// A field of a node: what it holds, by the node's kind, and its word.
#[derive(Clone, Copy, PartialEq, Eq, Debug)]
pub struct NodeField {
    pub holds: Holds,
    pub word: usize,
}

// The fields of a node.
#[derive(Clone, Copy, PartialEq, Eq, Debug)]
pub struct NodeFields {
    pub a: NodeField,
    pub b: NodeField,
    pub c: NodeField,
}

// Where the header has the offset of the nodes.
const NODES_AT: usize = 24;

// The word at an offset.
pub fn word(bytes: &[u8], at: usize) -> usize
    requires { at + 4 ≤ length bytes.now }
    ensures { (result ≡ word_at bytes.now at) × (result < 4294967296) }
{
    u32::from_le_bytes([bytes[at], bytes[at + 1], bytes[at + 2], bytes[at + 3]]) as usize
}

// Refusal 1.
#[tactic(auto, unfolding(rules::specs::Reading::headed))]
pub fn is_headed(table: &[u8]) -> bool
    ensures { result ≡ headed table.now }
{
    32 <= table.len() && word(table, 0) == 1
}

// Refusal 2.
#[tactic(auto, unfolding(rules::specs::Reading::limited))]
pub fn is_limited(table: &[u8]) -> bool
    requires { 32 ≤ length table.now }
    ensures { result ≡ limited table.now }
{
    word(table, 4) <= 16 && word(table, 8) <= 32 && word(table, 12) <= 512
}

// Refusal 3.
#[tactic(auto, unfolding(rules::specs::Reading::laid_out))]
pub fn is_laid_out(table: &[u8]) -> bool
    requires { 32 ≤ length table.now }
    ensures { result ≡ laid_out table.now }
{
    let identifiers_at = 32 + 4 * word(table, 4);
    let nodes_at = identifiers_at + 4 * word(table, 8);
    let end = nodes_at + 16 * word(table, 12);
    word(table, 16) == 32
        && word(table, 20) == identifiers_at
        && word(table, NODES_AT) == nodes_at
        && word(table, 28) == end
        && table.len() == end
}

// G, I and N.
pub fn givens(table: &[u8]) -> usize
    requires { 32 ≤ length table.now }
    ensures { result ≡ given_count table.now }
{
    word(table, 4)
}

pub fn identifiers(table: &[u8]) -> usize
    requires { 32 ≤ length table.now }
    ensures { result ≡ identifier_count table.now }
{
    word(table, 8)
}

pub fn nodes(table: &[u8]) -> usize
    requires { 32 ≤ length table.now }
    ensures { result ≡ node_count table.now }
{
    word(table, 12)
}

// The offset of the node records, which the functions below take as `at`. It stays an argument of its own: the public ones
// keep their contracts, and the private ones only pass it on to these.
pub fn nodes_offset(table: &[u8]) -> usize
    requires { 32 ≤ length table.now }
    ensures { result ≡ nodes_at table.now }
{
    32 + 4 * word(table, 4) + 4 * word(table, 8)
}

// The size of a given set, or 0 where there is none of that number: the rules' own default, which the
// clause names (`get_or`), and below which no element is.
pub fn size(table: &[u8], g: usize) -> usize
    requires { Header table.now }
    ensures { result ≡ get_or (table_of table.now).sizes g 0 }
{
    if givens(table) <= g {
        return 0;
    }
    word(table, 32 + 4 * g)
}

// An identifier's word: 0 free, 1 bound. It stays a word: refusal 5 asks for any other.
pub fn bind(table: &[u8], x: usize) -> usize
    requires { Header table.now × (x < identifier_count table.now) }
    ensures { WordOf table.now x result }
{
    word(table, 32 + 4 * givens(table) + 4 * x)
}

// The kind of a node.
pub fn kind(table: &[u8], at: usize, n: usize) -> usize
    requires { NodeIn table.now at n }
    ensures { result ≡ (node_at (table_of table.now).nodes n).kind }
{
    word(table, at + 16 * n)
}

// A field of a node: a, b and c are 0, 1 and 2.
pub fn field(table: &[u8], at: usize, n: usize, i: usize) -> usize
    requires { NodeIn table.now at n × (i < 3) }
    ensures { result ≡ get_or (field_words (node_at (table_of table.now).nodes n)) i 0 }
{
    word(table, at + 16 * n + 4 + 4 * i)
}

// The same for a table whose header is right: the offset of the nodes stands in it, at byte 24. Both pairs are public, so both
// stay; docs/DECISIONS.md says why there are two.
pub fn node_kind(table: &[u8], n: usize) -> usize
    requires { NodeIn table.now (nodes_at table.now) n }
    ensures { result ≡ (node_at (table_of table.now).nodes n).kind }
{
    kind(table, word(table, NODES_AT), n)
}

pub fn node_field(table: &[u8], n: usize, i: usize) -> usize
    requires { NodeIn table.now (nodes_at table.now) n × (i < 3) }
    ensures { result ≡ get_or (field_words (node_at (table_of table.now).nodes n)) i 0 }
{
    field(table, word(table, NODES_AT), n, i)
}

// The category of a kind code, if it is known. Kinds stay numbers here and above (project rule: decisions by match on their codes and ranges).
pub fn category(kind: usize) -> Option<NodeCategory>
    ensures { result ≡ category_if (kind_of kind) }
{
    match kind {
        1..=11 => Some(NodeCategory::Predicate),
        20..=43 => Some(NodeCategory::Expression),
        _ => None,
    }
}

// The row of a kind in the table; 0 where the kind is unknown, as rows of unused fields are (`row_of` of its clause).
fn field_codes(kind: usize) -> u16
    ensures { result ≡ row_of (kind_of kind) }
{
    if 44 <= kind {
        return 0;
    }
    FIELDS[kind]
}

// The digit of field i in the row of a kind.
fn digit(row: u16, i: usize) -> u16
    requires { i < 3 }
    ensures { DigitOf row i result }
{
    match i {
        0 => row / 256,
        1 => row / 16 % 16,
        _ => row % 16,
    }
}

// What field i holds, by the row of a kind.
pub fn field_holds(row: u16, i: usize) -> Holds
    requires { i < 3 }
    ensures { HoldsOf row i result }
{
    Holds::from(digit(row, i))
}

// Field i of node n, whose kind has the row.
fn field_by_row(table: &[u8], at: usize, n: usize, row: u16, i: usize) -> NodeField
    requires { NodeIn table.now at n × (i < 3) × (row ≡ field_codes_at table.now n) }
    ensures { FieldOf table.now n i result }
{
    NodeField {
        holds: field_holds(row, i),
        word: field(table, at, n, i),
    }
}

// The fields of a node. A constant table is made anew where it is read, so the row of the node's kind is read once.
pub fn node_fields(table: &[u8], at: usize, n: usize) -> NodeFields
    requires { NodeIn table.now at n }
    ensures { FieldsOf table.now n result }
{
    let row = field_codes(kind(table, at, n));
    NodeFields {
        a: field_by_row(table, at, n, row, 0),
        b: field_by_row(table, at, n, row, 1),
        c: field_by_row(table, at, n, row, 2),
    }
}

// Whether x is a node below n of a category.
fn is_child(table: &[u8], at: usize, n: usize, x: usize, c: NodeCategory) -> bool
    requires { NodeIn table.now at n }
    ensures { result ≡ (ltb x n && category_is (category_in_rules c) (kind_at (table_of table.now).nodes x)) }
{
    x < n && category(kind(table, at, x)) == Some(c)
}

// Whether the word of a field of node n is right.
fn field_is_good(table: &[u8], at: usize, n: usize, here: NodeField) -> bool
    requires { NodeIn table.now at n }
    ensures { result ≡ field_good (table_of table.now) n (field_of here.holds) here.word }
{
    let x = here.word;
    match here.holds {
        Holds::Nothing => x == 0,
        Holds::Predicate => is_child(table, at, n, x, NodeCategory::Predicate),
        Holds::Expression => is_child(table, at, n, x, NodeCategory::Expression),
        Holds::IdentifierUsed | Holds::IdentifierBound => x < identifiers(table),
        Holds::GivenSet => x < givens(table),
        Holds::Element => x < size(table, field(table, at, n, 0)),
        Holds::AnyWord => true,
        Holds::Truth => x < 2,
    }
}

// Refusal 6 at one node.
fn node_is_good(table: &[u8], at: usize, n: usize) -> bool
    requires { NodeIn table.now at n }
    ensures { result ≡ node_good (table_of table.now) n }
{
    if category(kind(table, at, n)).is_none() {
        return false;
    }
    let fields = node_fields(table, at, n);
    field_is_good(table, at, n, fields.a)
        && field_is_good(table, at, n, fields.b)
        && field_is_good(table, at, n, fields.c)
}

// Refusal 4: the least given set of a wrong size.
pub fn first_bad_size(table: &[u8]) -> Option<usize>
    requires { Header table.now }
    ensures { found_place result ≡ least_failing (size_good (table_of table.now)) 0 (given_count table.now) }
{
    (0..givens(table)).find(|g| !matches!(size(table, *g), 1..=32))
}

// Refusal 5: the least identifier whose word is neither 0 nor 1.
pub fn first_bad_bind(table: &[u8]) -> Option<usize>
    requires { Header table.now }
    ensures { found_place result ≡ least_failing (bind_good (table_of table.now)) 0 (identifier_count table.now) }
{
    (0..identifiers(table)).find(|x| 1 < bind(table, *x))
}

// Refusal 6: the least node with a fault.
pub fn first_bad_node(table: &[u8], at: usize) -> Option<usize>
    requires { Laid table.now at }
    ensures { found_place result ≡ least_failing (node_good (table_of table.now)) 0 (node_count table.now) }
{
    (0..nodes(table)).find(|n| !node_is_good(table, at, *n))
}
