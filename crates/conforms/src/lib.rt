// Whether values have the types that a sheet gives to the free identifiers of a table.
#![tactic(auto)]

ghost use Rattle.std.specs.Prelude.{◌≡◌, ◌+◌, ◌*◌, ◌≤◌, ◌<◌, length};
ghost use Rattle.rules.specs.Readable.{Readable};
ghost use Rattle.rules.specs.Tables.{identifier_count};
ghost use Rattle.buffer.specs.Buffer.{cells_at_most};
ghost use Rattle.buffer.specs.Loaded.{LoadReady};
ghost use Rattle.fitting.specs.Types.{Decides};
ghost use Rattle.conforms.specs.Conforming.{conforming};
ghost use Rattle.conforms.specs.Rows.{is_code, goes_on, left_behind, TypeRow, NameReady, NameHas};
ghost use Rattle.conforms.specs.Rows.{ValuesLoaded, LoadedConform};

// The bytes of a place's row in a sheet, named here too: table, the crate to share it by, knows no sheets.
const ROW: usize = 64;

// Whether a byte is the code of a type's first constructor. No enum: the C interface fixes the bytes of a sheet.
fn is_code(c: u8) -> bool
    ensures { result ≡ is_code c }
{
    matches!(c, 1..=4 | 16..=255)
}

// Whether the byte c may stand in a row where `left` types are still to be read: a code, and a zero behind the last type.
fn goes_on(c: u8, left: usize) -> bool
    ensures { result ≡ goes_on c left }
{
    if left == 0 { c == 0 } else { is_code(c) }
}

// How many are then to be read behind it.
fn left_behind(c: u8, left: usize) -> usize
    requires { left ≤ 65 }
    ensures { result ≡ left_behind c left }
{
    if left == 0 {
        0
    } else {
        left - 1 + fitting::type_parts(c)
    }
}

// Whether the row of the place p is that of a type: its codes in prefix order, and then zeros.
fn is_row(sheet: &[u8], p: usize) -> bool
    requires { 64 * p + 64 ≤ length sheet.now }
    ensures { Decides result (TypeRow sheet.now p) }
{
    let row = &sheet[ROW * p..ROW * p + ROW];
    let mut left = 1;
    for c in row {
        if !goes_on(*c, left) {
            return false;
        }
        left = left_behind(*c, left);
    }
    left == 0
}

// Whether the value at `at` has the type in the row of the identifier x, if x is free.
fn name_has(table: &[u8], s: &[u64], at: usize, sheet: &[u8], x: usize) -> bool
    requires { NameReady table.now s.now at sheet.now x }
    ensures { NameHas table.now s.now at sheet.now x result }
{
    if table::bind(table, x) != 0 {
        return true;
    }
    if !is_row(sheet, x) {
        return false;
    }
    fitting::has_type(s, at, sheet, ROW * x)
}

// The same for all identifiers, whose values `buffer::load` has read into the arena s from any place on; the sheet may have any length.
pub fn loaded_conform(table: &[u8], s: &[u64], env: &[u32; 32], sheet: &[u8]) -> bool
    requires { ValuesLoaded table.now s.now env.now }
    ensures { LoadedConform table.now s.now env.now sheet.now result }
{
    let count = table::identifiers(table);
    if sheet.len() != ROW * (count + table::nodes(table)) {
        return false;
    }
    for x in 0..count {
        let at = env[x] as usize;
        if !name_has(table, s, at, sheet, x) {
            return false;
        }
    }
    true
}

// The same for the values of a buffer, which are read into the arena s.
fn conforms_in(table: &[u8], sheet: &[u8], values: &[u8], s: &mut [u64]) -> bool
    requires { LoadReady table.now values.now s.old 0 }
    ensures { result ≡ conforming table.now sheet.now values.now }
{
    // The places alone: to move the whole environment is a call of memcpy, and the archive for C is to need no name from outside but memset.
    let Ok(loaded) = buffer::load(table, values, s, 0) else {
        return false;
    };
    let at = loaded.at;
    loaded_conform(table, s, &at, sheet)
}

// Few values, and the value of those that have none.
const SMALL: usize = 512;

// 32 values, each of at most 256 cells, and the value of those that have none.
const LARGE: usize = 8193;

// The same in an arena of so many cells. A call for few values does not pay for the larger one. Not shared with the merge in unions: one
// function for both would take a closure, and would have to state each answer through what the closure ensures.
fn conforms_within<const CELLS: usize>(table: &[u8], sheet: &[u8], values: &[u8]) -> bool
    requires { Readable table.now ×
        (1 + cells_at_most (identifier_count table.now) (length values.now) ≤ CELLS) × (CELLS < 4294967296) }
    ensures { result ≡ conforming table.now sheet.now values.now }
{
    let mut s = [0u64; CELLS];
    conforms_in(table, sheet, values, &mut s)
}

fn conforms_readable(table: &[u8], sheet: &[u8], values: &[u8]) -> bool
    requires { Readable table.now }
    ensures { result ≡ conforming table.now sheet.now values.now }
{
    if buffer::cells_at_most(table::identifiers(table), values.len()) < SMALL {
        conforms_within::<SMALL>(table, sheet, values)
    } else {
        conforms_within::<LARGE>(table, sheet, values)
    }
}

// Whether the values buffer gives each free identifier of the table a value of the type in its row of the sheet.
// No struct of the buffers: the parameters of a public function stay, and the inner ones pass its arguments on.
pub fn conforms(table: &[u8], sheet: &[u8], values: &[u8]) -> bool
    ensures { result ≡ conforming table.now sheet.now values.now }
{
    match reading::read(table) {
        Ok(()) => conforms_readable(table, sheet, values),
        Err(_) => false,
    }
}
