// The batch program: cases on standard input, one line for each answer. All words have 4 bytes, least first.
// A check: 1, the table's length, the sheet's length, the table. An evaluation: 2, the table's length, the values' length,
// the budget, the table, the values. A merge of the values of the two lowest free identifiers: 9, the table's length, the
// values' length, the table, the values. A check answers `accepted` and the row of every place, an evaluation its truth and
// its steps, a merge `merged`, its comparisons and the cells of the union, or `unfit` or `heavy`; a refusal has its number
// and place. A table of up to 16,384 bytes, values of up to 131,072 and a sheet of up to 1,048,576 are taken, more than any
// right one has. What ends the batch early is its last line: `long` for a longer one, `cut` for an input that ends inside a
// case, `unknown` for another first word. A failed read or write ends it by its error.
#![tactic(auto)]

use batch::Stop;
use std::io;
use std::io::{Read, Write};
use unions::MergeError;

// Room for the table, the values and the sheet of a case. No Vec: room that is there from the start cannot run out.
#[derive(Drop)]
struct Rooms {
    table: [u8; batch::TABLE],
    values: [u8; batch::VALUES],
    sheet: [u8; batch::SHEET],
}

impl Rooms {
    fn new() -> Rooms {
        Rooms {
            table: [0; batch::TABLE],
            values: [0; batch::VALUES],
            sheet: [0; batch::SHEET],
        }
    }
}

// What a case asks for.
#[derive(Clone, Copy, Debug, PartialEq, Eq)]
enum Kind {
    Check,
    Evaluation,
    Merge,
}

// By the first word.
impl TryFrom<usize> for Kind {
    type Error = Stop;

    fn try_from(word: usize) -> Result<Kind, Stop> {
        match word {
            1 => Ok(Kind::Check),
            2 => Ok(Kind::Evaluation),
            9 => Ok(Kind::Merge),
            _ => Err(Stop::Unknown),
        }
    }
}

fn evaluate_case<W: Write>(
    out: &mut W,
    table: &[u8],
    values: &[u8],
    budget: u32,
) -> io::Result<()> {
    let evaluation = evaluate::evaluate(table, values, budget);
    let ending = evaluation.ending;
    let steps = evaluation.steps;
    writeln!(out, "{ending} {steps}")
}

// A union that is not `heavy` has at most 256 cells, of 8 bytes each.
fn merge_case<W: Write>(out: &mut W, table: &[u8], values: &[u8]) -> io::Result<()> {
    let mut cells = [0u8; 2048];
    match unions::merge_values(table, values, &mut cells) {
        Ok(merged) => {
            let comparisons = merged.comparisons;
            write!(out, "merged {comparisons} ")?;
            batch::print_bytes(out, &cells, merged.bytes)?;
        }
        Err(MergeError::Refused(refusal)) => write!(out, "{refusal}")?,
        Err(MergeError::Unfit) => out.write_all(b"unfit")?,
        Err(MergeError::Heavy(_)) => out.write_all(b"heavy")?,
    }
    out.write_all(b"\n")
}

// The table of t bytes and the values of v bytes are next in the input: their evaluation, or their merge where there is no budget.
fn next_values<R: Read, W: Write>(
    input: &mut R,
    out: &mut W,
    rooms: &mut Rooms,
    t: usize,
    v: usize,
    budget: Option<u32>,
) -> Result<(), Stop> {
    if t > batch::TABLE || v > batch::VALUES {
        return Err(Stop::Long);
    }
    let table = &mut rooms.table[..];
    let table = &mut table[..t];
    batch::take(input, table)?;
    let values = &mut rooms.values[..];
    let values = &mut values[..v];
    batch::take(input, values)?;
    match budget {
        Some(budget) => evaluate_case(out, table, values, budget)?,
        None => merge_case(out, table, values)?,
    }
    Ok(())
}

// An evaluation: the lengths of its table and of its values, its budget, the table and the values are next in the input.
fn next_evaluation<R: Read, W: Write>(
    input: &mut R,
    out: &mut W,
    rooms: &mut Rooms,
) -> Result<(), Stop> {
    let mut head = [0u8; 12];
    batch::take(input, &mut head)?;
    let budget = table::word(&head, 8) as u32;
    next_values(
        input,
        out,
        rooms,
        table::word(&head, 0),
        table::word(&head, 4),
        Some(budget),
    )
}

// A merge: the same without a budget.
fn next_merge<R: Read, W: Write>(
    input: &mut R,
    out: &mut W,
    rooms: &mut Rooms,
) -> Result<(), Stop> {
    let mut head = [0u8; 8];
    batch::take(input, &mut head)?;
    next_values(
        input,
        out,
        rooms,
        table::word(&head, 0),
        table::word(&head, 4),
        None,
    )
}

// The next case; whether there is one.
fn next_case<R: Read, W: Write>(
    input: &mut R,
    out: &mut W,
    rooms: &mut Rooms,
) -> Result<bool, Stop> {
    let mut head = [0u8; 4];
    let n = batch::next_bytes(input, &mut head, 4)?;
    if n == 0 {
        return Ok(false);
    }
    if n < 4 {
        return Err(Stop::Cut);
    }
    match Kind::try_from(table::word(&head, 0))? {
        Kind::Check => batch::next_check(input, out, &mut rooms.table[..], &mut rooms.sheet[..])?,
        Kind::Evaluation => next_evaluation(input, out, rooms)?,
        Kind::Merge => next_merge(input, out, rooms)?,
    }
    Ok(true)
}

// Nothing says that the input ends, so the turns are counted: no input has so many cases.
fn all_cases<R: Read, W: Write>(input: &mut R, out: &mut W, rooms: &mut Rooms) -> Result<(), Stop> {
    for _ in 0..u64::MAX {
        if !next_case(input, out, rooms)? {
            return Ok(());
        }
    }
    Ok(())
}

fn main(rt: HostRuntime) -> io::Result<()> {
    let mut input = rt.stdin();
    let mut out = rt.stdout();
    let mut rooms = Rooms::new();
    match all_cases(&mut input, &mut out, &mut rooms) {
        Ok(()) => Ok(()),
        Err(Stop::Failed(error)) => Err(error),
        Err(stop) => out.write_all(stop.line()),
    }
}
