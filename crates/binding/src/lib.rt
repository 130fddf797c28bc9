// Refusal 9: a bound identifier is named by exactly one binder and used only in its body; a free one has no binder.
#![tactic(auto)]

ghost use Rattle.std.specs.Prelude.{◌≡◌, not, ◌&&◌, ◌<◌, eqb, length};
ghost use Rattle.rules.specs.Tables.{table_of, identifier_count};
ghost use Rattle.rules.specs.Kinds.{is_binder};
ghost use Rattle.rules.specs.Readable.{Header};
ghost use Rattle.rules.specs.Ends.{least_failing};
ghost use Rattle.rules.specs.Reading.{occurs_in, binding};
ghost use Rattle.table.specs.Places.{found_place};
ghost use Rattle.table.specs.Codes.{field_of};
ghost use Rattle.table.specs.Layout.{Fielded};
ghost use Rattle.trees.specs.Arrays.{Usable};
ghost use Rattle.binding.specs.Words.{has_bit, WordIs, free_in, Named};

use table::{Holds, NodeField};

// The identifiers of a table as bits: named by a binder, named by two, free at the root.
#[derive(Clone, Copy)]
struct Names {
    bound: u32,
    twice: u32,
    free: u32,
}

// A set of identifiers is a word: there are 32 at most, and `|` and `&` join and meet two of them, so a struct would only repeat these as methods.

// The word of x alone.
fn bit(x: usize) -> u32
    requires { x < 32 }
    ensures { WordIs (λ y. eqb y x) result }
{
    1u32 << (x as u32)
}

// Whether x has its bit.
fn has(names: u32, x: usize) -> bool
    requires { x < 32 }
    ensures { result ≡ has_bit names x }
{
    (names >> (x as u32)) % 2 == 1
}

// The identifiers of one word without those of another.
fn without(names: u32, here: u32) -> u32
    ensures { WordIs (λ x. not (has_bit here x) && has_bit names x) result }
{
    names & !here
}

// The identifier that a node binds, by its first field. No other field binds.
fn bound_at(first: NodeField) -> u32
    requires { Usable first }
    ensures { WordIs (λ x. is_binder (field_of first.holds) && eqb x first.word) result }
{
    match first.holds {
        Holds::IdentifierBound => bit(first.word),
        _ => 0,
    }
}

// The identifiers that a field makes occur free; `here` is the one that its node binds, `names` has those that occur free below.
// A binder binds in its body, a predicate, and not in its range.
fn field_names(field: NodeField, here: u32, names: &[u32]) -> u32
    requires { Usable field × (length names.now ≡ 512) }
    ensures { WordIs (λ x. occurs_in x (has_bit here x) (free_in names.now x) (field_of field.holds) field.word) result }
{
    match field.holds {
        Holds::Predicate => without(names[field.word], here),
        Holds::Expression => names[field.word],
        Holds::IdentifierUsed => bit(field.word),
        _ => 0,
    }
}

// One pass over the nodes, with a word for each (fixed memory). The last node is the root.
fn names_of(table: &[u8], at: usize) -> Names
    requires { Fielded table.now at }
    ensures { Named table.now result }
{
    let mut names = [0u32; 512];
    let mut bound = 0;
    let mut twice = 0;
    let mut free = 0;
    for n in 0..table::nodes(table) {
        let fields = table::node_fields(table, at, n);
        let here = bound_at(fields.a);
        let a = field_names(fields.a, here, &names);
        let b = field_names(fields.b, here, &names);
        let c = field_names(fields.c, here, &names);
        free = a | b | c;
        names[n] = free;
        twice |= bound & here;
        bound |= here;
    }
    Names { bound, twice, free }
}

// Refusal 9 at one identifier.
fn binding_is_good(table: &[u8], x: usize, names: Names) -> bool
    requires { Header table.now × (x < identifier_count table.now) × Named table.now names }
    ensures { result ≡ binding (table_of table.now) x }
{
    let bound = has(names.bound, x);
    if table::bind(table, x) == 0 {
        return !bound;
    }
    bound && !has(names.twice, x) && !has(names.free, x)
}

// Refusal 9: the least identifier that breaks the binding rules.
pub fn first_bad_binding(table: &[u8], at: usize) -> Option<usize>
    requires { Fielded table.now at }
    ensures { found_place result ≡ least_failing (binding (table_of table.now)) 0 (identifier_count table.now) }
{
    let names = names_of(table, at);
    (0..table::identifiers(table)).find(|x| !binding_is_good(table, *x, names))
}
