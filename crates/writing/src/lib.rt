// Values of the arena written in the form of the values buffer.
#![tactic(auto)]

ghost use Rattle.std.specs.Prelude.{◌≡◌, ◌*◌, ◌≤◌, length};
ghost use Rattle.writing.specs.Written.{cells_put, WriteReady, Writes};

// The bytes of a cell.
const CELL_BYTES: usize = 8;

// Writes cells of the arena to the front of `out`, in the buffer's form: eight bytes each, the least first, so its payload and then its tag.
fn put_cells(cells: &[u64], out: &mut [u8])
    requires { 8 * length cells.now ≤ length out.old }
    ensures { out.new ≡ cells_put cells.now out.old }
{
    for (i, cell) in cells.iter().enumerate() {
        let bytes = buffer::code_cell(*cell).to_le_bytes();
        out[CELL_BYTES * i..CELL_BYTES * i + CELL_BYTES].copy_from_slice(&bytes);
    }
}

// Writes the value at `at`, which ends at `end`, to the front of `out` if it fits there, and answers the number of its bytes. It answers
// this also where the value does not fit (C interface: `bytes` of a merge tells the room that is needed).
pub fn write_value(s: &[u64], at: usize, end: usize, out: &mut [u8]) -> usize
    requires { WriteReady s.now at end }
    ensures { Writes s.now at end out.old out.new result }
{
    let cells = &s[at..end];
    let bytes = CELL_BYTES * cells.len();
    if out.len() < bytes {
        return bytes;
    }
    put_cells(cells, out);
    bytes
}
