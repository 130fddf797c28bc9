// Cases of the batch program: bytes from a reader, lines to a writer, and checks.
#![tactic(auto)]

ghost use Rattle.std.specs.Prelude.{◌≤◌, ◌≡◌, length, drop};
ghost use Rattle.std.specs.Io.{ReadsAtMost};
ghost use Rattle.batch.specs.declared.Stop.TheVariants.{Failed};
ghost use Rattle.batch.specs.Stops.{stop_text, stop_line};

use std::io::{Read, Write};
use std::{fmt, io};

// The most bytes of a case's table, values and sheet that are taken.
pub const TABLE: usize = 16384;

pub const VALUES: usize = 131072;

pub const SHEET: usize = 1048576;

// The bytes of a place's row in a sheet, named here too: table, the crate to share it by, knows no sheets.
const ROW: usize = 64;

// What ends a batch early: an input that ends inside a case, a table, values or a sheet that is too long, an unknown first word, or a failed read
// or write.
#[derive(Debug, Drop)]
pub enum Stop {
    Cut,
    Long,
    Unknown,
    Failed(io::Error),
}

impl fmt::Display for Stop {
    ghost output = { λ s. stop_text s };

    fn fmt<W: fmt::Write>(&self, f: &mut fmt::Formatter<W>) -> fmt::Result {
        match self {
            Stop::Cut => write!(f, "cut"),
            Stop::Long => write!(f, "long"),
            Stop::Unknown => write!(f, "unknown"),
            Stop::Failed(error) => write!(f, "{error}"),
        }
    }
}

impl Stop {
    // The last line of a batch that ends by it; none where a read or write has failed. It stands here whole, so that it goes out by one write.
    pub fn line(&self) -> &'static [u8]
        ensures { result.now ≡ stop_line self.now }
    {
        match self {
            Stop::Cut => b"cut\n",
            Stop::Long => b"long\n",
            Stop::Unknown => b"unknown\n",
            Stop::Failed(_) => b"",
        }
    }
}

impl From<io::Error> for Stop {
    ghost from_gives = { λ e s. s ≡ Failed e };

    fn from(cause: io::Error) -> Stop {
        Stop::Failed(cause)
    }
}

// The first n bytes, or all if there are fewer, in hexadecimal. The parameters of a public function stay. No Display here and in the
// two functions below: a Display would be of a type of ours, and what is printed are lent slices.
pub fn print_bytes<W: Write>(out: &mut W, bytes: &[u8], n: usize) -> io::Result<()> {
    for byte in bytes.iter().take(n) {
        write!(out, "{byte:02x}")?;
    }
    Ok(())
}

// The codes of a row without its fill, or p for a row that has none. Not shared with text: there the row goes to a lent buffer.
fn print_row<W: Write>(out: &mut W, row: &[u8]) -> io::Result<()> {
    let codes = row.iter().take_while(|code| **code != 0).count();
    if codes == 0 {
        return out.write_all(b" p");
    }
    out.write_all(b" ")?;
    print_bytes(out, row, codes)
}

fn print_rows<W: Write>(out: &mut W, sheet: &[u8]) -> io::Result<()> {
    out.write_all(b"accepted")?;
    for row in sheet.chunks_exact(ROW) {
        print_row(out, row)?;
    }
    Ok(())
}

fn check_case<W: Write>(out: &mut W, table: &[u8], sheet: &mut [u8]) -> io::Result<()> {
    match checker::check(table, sheet) {
        Ok(()) => print_rows(out, sheet)?,
        Err(refusal) => write!(out, "{refusal}")?,
    }
    out.write_all(b"\n")
}

// Reads until the buffer is full or the input ends, and returns how many bytes it put at the start of the buffer.
// A while: std's read_exact does not say how many bytes came before the end, and read_to_end fills a Vec, not a lent buffer.
fn read_full<R: Read>(input: &mut R, buffer: &mut [u8]) -> io::Result<usize>
    ensures { ReadsAtMost result buffer.new }
{
    let mut done: usize = 0;
    while done < buffer.len() {
        let got = input.read(&mut buffer[done..])?;
        if got == 0 {
            break;
        }
        done += got;
    }
    Ok(done)
}

// How many of the next n bytes the input still has. They then stand at the start of the buffer. After a failed read it may hold
// some of them; past n the buffer stays as it was. Its clause `rest` speaks of the buffer past n, so n stands beside the buffer.
pub fn next_bytes<R: Read>(input: &mut R, buffer: &mut [u8], n: usize) -> io::Result<usize>
    requires { n ≤ length buffer.old }
    ensures read { ReadsAtMost result buffer.new }
    ensures rest { drop n buffer.new ≡ drop n buffer.old }
{
    read_full(input, &mut buffer[..n])
}

// Fills the buffer with the next bytes of the input.
pub fn take<R: Read>(input: &mut R, buffer: &mut [u8]) -> Result<(), Stop> {
    if read_full(input, buffer)? < buffer.len() {
        return Err(Stop::Cut);
    }
    Ok(())
}

// A check: the lengths of its table and of its sheet, and the table, are next in the input.
pub fn next_check<R: Read, W: Write>(
    input: &mut R,
    out: &mut W,
    table: &mut [u8],
    sheet: &mut [u8],
) -> Result<(), Stop>
    requires { (16384 ≤ length table.old) × (1048576 ≤ length sheet.old) }
{
    let mut head = [0u8; 8];
    take(input, &mut head)?;
    let t = table::word(&head, 0);
    let n = table::word(&head, 4);
    if t > TABLE || n > SHEET {
        return Err(Stop::Long);
    }
    take(input, &mut table[..t])?;
    check_case(out, &table[..t], &mut sheet[..n])?;
    Ok(())
}
