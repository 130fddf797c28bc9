// The union of two lent sets by the merge, with its comparisons (document 02, N12).
#![tactic(auto)]

ghost use Rattle.std.specs.Prelude.{◌≡◌, ◌+◌, ◌≤◌, ◌<◌, length};
ghost use Rattle.rules.specs.Readable.{Header, Readable};
ghost use Rattle.rules.specs.Tables.{table_of, identifier_count};
ghost use Rattle.rules.specs.Merges.{union_in};
ghost use Rattle.buffer.specs.Buffer.{cells_at_most};
ghost use Rattle.operations.specs.Outcomes.{TwoReady};
ghost use Rattle.unions.specs.declared.MergeError.TheVariants.{Refused};
ghost use Rattle.unions.specs.Answers.{merge_answered, cells_after, MergeAnswers, Unites, NextFree, MergeReady, LoadedMerges, ArenaFits};

use buffer::ValueFault;
use reading::Refusal;

// A union that has been written, or would have been if it fitted: the comparisons of the merge, and the bytes of the union's cells.
#[derive(Clone, Copy)]
pub struct Merged {
    pub comparisons: u64,
    pub bytes: usize,
}

// Refusals 1 to 9 and 14; two values that are not sets of one type; a union of more than 256 cells, with the comparisons of the whole merge.
#[derive(Clone, Copy)]
pub enum MergeError {
    Refused(Refusal),
    Unfit,
    Heavy(u64),
}

impl From<Refusal> for MergeError {
    ghost from_gives = { λ r e. e ≡ Refused r };

    fn from(refusal: Refusal) -> MergeError {
        MergeError::Refused(refusal)
    }
}

impl From<ValueFault> for MergeError {
    ghost from_gives = { λ f e. e ≡ Refused (record { number = 14; place = f.identifier }) };

    fn from(fault: ValueFault) -> MergeError {
        MergeError::Refused(Refusal {
            number: 14,
            place: fault.identifier,
        })
    }
}

// Merges the values at a and b above them, and writes their union to `cells` if it fits there.
fn unite(
    s: &mut [u64],
    a: usize,
    b: usize,
    top: usize,
    cells: &mut [u8],
) -> Result<Merged, MergeError>
    requires { TwoReady s.old a b top }
    ensures { Unites s.old a b top cells.old cells.new result }
{
    if !fitting::alike_sets(s, a, b) {
        return Err(MergeError::Unfit);
    }
    let pass = merging::merge(s, a, b, top, sets::UNION);
    let comparisons = pass.comparisons;
    match pass.end {
        Some(end) => {
            let bytes = writing::write_value(s, top, end, cells);
            Ok(Merged { comparisons, bytes })
        }
        None => Err(MergeError::Heavy(comparisons)),
    }
}

// The least free identifier from x on.
fn next_free(table: &[u8], x: usize) -> Option<usize>
    requires { Header table.now }
    ensures { NextFree (table_of table.now).binds x result }
{
    for y in x..table::identifiers(table) {
        if table::bind(table, y) == 0 {
            return Some(y);
        }
    }
    None
}

// The values of the two lowest free identifiers, which stand where `env` says, below top.
fn merge_loaded(
    table: &[u8],
    env: &[u32; 32],
    s: &mut [u64],
    top: usize,
    cells: &mut [u8],
) -> Result<Merged, MergeError>
    requires { MergeReady table.now env.now s.old top }
    ensures { LoadedMerges table.now env.now s.old top cells.old cells.new result }
{
    let x = next_free(table, 0).ok_or(MergeError::Unfit)?;
    let y = next_free(table, x + 1).ok_or(MergeError::Unfit)?;
    unite(s, env[x] as usize, env[y] as usize, top, cells)
}

// The same of the values of a buffer, which are read into the arena s.
fn merge_in(
    table: &[u8],
    values: &[u8],
    cells: &mut [u8],
    s: &mut [u64],
) -> Result<Merged, MergeError>
    requires { ArenaFits table.now values.now s.old }
    ensures { MergeAnswers table.now values.now cells.old cells.new result }
{
    let loaded = buffer::load(table, values, s, 0)?;
    merge_loaded(table, &loaded.at, s, loaded.end, cells)
}

// The cells of few values.
const FEW: usize = 512;

// Room for few values, the cell of an identifier without a value, and a merge.
const SMALL: usize = FEW + 515;

// 32 values, each of at most 256 cells, and as much besides.
const LARGE: usize = 8707;

// The same in an arena of so many cells. A call for few values does not pay for the larger one. Not shared with conforms: one function for
// both would take a closure, and would have to state each answer through what the closure ensures.
fn merge_within<const CELLS: usize>(
    table: &[u8],
    values: &[u8],
    cells: &mut [u8],
) -> Result<Merged, MergeError>
    requires { Readable table.now ×
        (1 + cells_at_most (identifier_count table.now) (length values.now) + 514 ≤ CELLS) × (CELLS < 4294967296) }
    ensures { MergeAnswers table.now values.now cells.old cells.new result }
{
    let mut s = [0u64; CELLS];
    merge_in(table, values, cells, &mut s)
}

fn merge_readable(table: &[u8], values: &[u8], cells: &mut [u8]) -> Result<Merged, MergeError>
    requires { Readable table.now }
    ensures { MergeAnswers table.now values.now cells.old cells.new result }
{
    if buffer::cells_at_most(table::identifiers(table), values.len()) <= FEW {
        return merge_within::<SMALL>(table, values, cells);
    }
    merge_within::<LARGE>(table, values, cells)
}

// Merges the values of the table's two lowest free identifiers: refusals 1 to 9 and 14, or the union, whose cells go to the front of `cells` if
// they fit there. No struct of the buffers: the parameters of a public function stay, and the inner ones pass its arguments on.
pub fn merge_values(table: &[u8], values: &[u8], cells: &mut [u8]) -> Result<Merged, MergeError>
    ensures { (result ≡ merge_answered (union_in table.now values.now)) ×
        (cells.new ≡ cells_after (union_in table.now values.now) cells.old) }
{
    reading::read(table)?;
    merge_readable(table, values, cells)
}
