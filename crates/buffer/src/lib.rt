// The values buffer of document 01 (refusal 14), read into the arena.
#![tactic(auto)]

ghost use Rattle.std.specs.Prelude.{◌≡◌, true, ◌+◌, ◌≤◌, ◌<◌};
ghost use Rattle.rules.specs.Tables.{table_of};
ghost use Rattle.rules.specs.Readable.{Header};
ghost use Rattle.buffer.specs.Buffer.{arena_cell, cell_good, cells_at_most, StepTakes, CopyReady, CopyAnswers};
ghost use Rattle.arena.specs.Code.{Same};
ghost use Rattle.buffer.specs.Loaded.{EntryReady, Enters, Loads, LoadReady};

// A cell in the buffer: its payload, its tag times 2^32, and zero bytes from FREE on.
const FREE: u64 = 256 * arena::CELL;

// A place in the values buffer where a cell may begin. Project rule: a cursor goes by value, and its method hands back the next one.
#[derive(Drop)]
pub struct Cursor {
    pub at: usize,
}

// A cell as one number, its tag times 2^32 and its payload, and the place behind it.
#[derive(Drop)]
pub struct Step {
    pub cell: u64,
    pub next: Cursor,
}

// A value that has been read into the arena up to `end`, and the place behind it in the buffer.
#[derive(Drop)]
struct Placed {
    next: Cursor,
    end: usize,
}

// The value of an identifier: where it stands, the place behind it in the buffer, and the arena's new top.
#[derive(Drop)]
struct Entry {
    place: usize,
    next: Cursor,
    end: usize,
}

// Where the value of each identifier stands, and the arena's new top. No Option: `Loads` gives a bound identifier the place of a value, zero.
#[derive(Drop)]
pub struct Environment {
    pub at: [u32; 32],
    pub end: usize,
}

// Refusal 14: the identifier whose value is no good, or the number of identifiers where bytes stand behind the last value.
// No Option: `evaluation` states this number as the refusal's place.
#[derive(Clone, Copy, Debug, PartialEq, Eq)]
pub struct ValueFault {
    pub identifier: usize,
}

impl Cursor {
    // The good cell at this place, if one stands there: eight bytes, the last three zero.
    fn next(self, table: &[u8], values: &[u8]) -> Option<Step>
        requires { Header table.now }
        ensures { StepTakes (table_of table.now).sizes values.now self.at result }
    {
        let at = self.at;
        let len = values.len();
        if len < 8 {
            return None;
        }
        if len - 8 < at {
            return None;
        }
        let x = table::word(values, at) as u64 + arena::CELL * table::word(values, at + 4) as u64;
        // `good_cell` refuses such a cell too; without this test a set of pairs is read slower.
        if x >= FREE {
            return None;
        }
        if !good_cell(table, x) {
            return None;
        }
        Some(Step {
            cell: x,
            next: Cursor { at: at + 8 },
        })
    }
}

// The arena's cell for a cell of the buffer, or the buffer's for one of the arena: numbers go from two's complement to excess form, or back.
// No From: both cells are a u64.
pub fn code_cell(cell: u64) -> u64
    ensures { result ≡ arena_cell cell }
{
    if arena::tag(cell) == arena::NUMBER_TAG {
        return arena::NUMBER + (arena::low(cell) + arena::EXCESS) % arena::CELL;
    }
    cell
}

// Whether a value may have this cell: its tag, a truth below 2, an element that its given set has, no payload of a pair. Numbers and pairs are told
// by the whole cell: a choice by tags is an indirect jump, which relations make the processor guess wrong.
fn good_cell(table: &[u8], cell: u64) -> bool
    requires { Header table.now }
    ensures { result ≡ cell_good (table_of table.now).sizes cell }
{
    if cell < arena::TRUTH {
        return cell >= arena::NUMBER;
    }
    if cell == arena::PAIR {
        return true;
    }
    let t = arena::tag(cell);
    let p = arena::low(cell);
    if t == arena::ELEMENT_TAG {
        return p % arena::GIVEN < table::size(table, (p / arena::GIVEN) as usize) as u64;
    }
    if t == arena::TRUTH_TAG {
        return p < 2;
    }
    t == arena::SET_TAG
}

// The cells that the values of n identifiers take at most: 256 each, and one for 8 bytes of the buffer.
pub fn cells_at_most(n: usize, bytes: usize) -> usize
    requires { n ≤ 32 }
    ensures { result ≡ cells_at_most n bytes }
{
    (arena::HEAVIEST * n).min(bytes / 8)
}

// Reads one value of at most 256 cells and copies it to the arena at top; none where no good value stands.
fn copy_value(
    table: &[u8],
    from: Cursor,
    values: &[u8],
    s: &mut [u64],
    top: usize,
) -> Option<Placed>
    requires { CopyReady table.now values.now from.at s.old top }
    ensures { Same top s.old s.new ×
        CopyAnswers (table_of table.now).sizes values.now from.at s.new top result }
{
    let mut c = from;
    let mut n = 0;
    let mut left = 1;
    // No for: how many cells a value has shows only as they are read. n is a length, the cells read so far.
    while left > 0 {
        // Each value that is still to be read takes a cell.
        if left > arena::HEAVIEST - n {
            return None;
        }
        let step = c.next(table, values)?;
        s[top + n] = code_cell(step.cell);
        left = left - 1 + arena::parts(step.cell);
        n += 1;
        c = step.next;
    }
    Some(Placed {
        next: c,
        end: top + n,
    })
}

// The value of the identifier x: a free one reads one without the faults that refusal 14 names; a bound one has the value at `none`.
// No struct of the parameters: `load` is public and has four of them, and the others change with each identifier.
fn read_entry(
    table: &[u8],
    x: usize,
    from: Cursor,
    values: &[u8],
    s: &mut [u64],
    none: usize,
    top: usize,
) -> Option<Entry>
    requires { EntryReady table.now x values.now from.at s.old top }
    ensures { Same top s.old s.new ×
        Enters table.now x values.now from.at s.old s.new none top result }
{
    if table::bind(table, x) != 0 {
        return Some(Entry {
            place: none,
            next: from,
            end: top,
        });
    }
    let placed = copy_value(table, from, values, s, top)?;
    if !canonical::fine(s, top, placed.end) {
        return None;
    }
    Some(Entry {
        place: top,
        next: placed.next,
        end: placed.end,
    })
}

// Reads the values of a readable table's free identifiers, and nothing else, into the arena s from top on. The cell at top is the
// value of the identifiers that have none.
pub fn load(
    table: &[u8],
    values: &[u8],
    s: &mut [u64],
    top: usize,
) -> Result<Environment, ValueFault>
    requires { LoadReady table.now values.now s.old top }
    ensures { Same top s.old s.new ×
        Loads (table_of table.now).sizes (table_of table.now).binds values.now s.new top result }
{
    let count = table::identifiers(table);
    s[top] = arena::ZERO;
    let mut env = [top as u32; 32];
    let mut c = Cursor { at: 0 };
    let mut end = top + 1;
    for x in 0..count {
        let Some(entry) = read_entry(table, x, c, values, s, top, end) else {
            return Err(ValueFault { identifier: x });
        };
        env[x] = entry.place as u32;
        c = entry.next;
        end = entry.end;
    }
    if c.at < values.len() {
        return Err(ValueFault { identifier: count });
    }
    Ok(Environment { at: env, end })
}
