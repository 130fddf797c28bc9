// Decides whether a table's condition is well typed, and writes its types.
#![tactic(auto)]

mod solving;

ghost use Rattle.std.specs.Prelude.{◌≡◌, length};
ghost use Rattle.rules.specs.Tables.{node_count};
ghost use Rattle.rules.specs.Readable.{Readable};
ghost use Rattle.rules.specs.Verdict.{sheet_after};
ghost use Rattle.typing.specs.Model.{verdict};
ghost use Rattle.checker.specs.Solving.{Ready, WorkRoom, SizesFit};
ghost use Rattle.checker.specs.Answers.{answer_of, answered, Answerable, Checkable, Told};

use deciding::{HEAVY, OPENED};
use reading::Refusal;
use sheets::Places;
use solving::{Problem, Work};

// The sizes of the work arrays for tables of up to 64 nodes, of up to 160, and of up to 512: 32 variables for the identifiers and 6 for a node,
// 2 equations for a node, an entry of `starts` for each node and one more, and a stack with room for two more than the variables. Each size
// has a name: `check_sized` takes four of them, and a const argument is not computed from another, so no one formula gives the rows.
const SMALL: usize = 64;

const SMALL_VARIABLES: usize = 32 + 6 * SMALL;

const SMALL_EQUATIONS: usize = 2 * SMALL;

const SMALL_STARTS: usize = SMALL + 1;

const SMALL_STACK: usize = SMALL_VARIABLES + 2;

const MIDDLE: usize = 160;

const MIDDLE_VARIABLES: usize = 32 + 6 * MIDDLE;

const MIDDLE_EQUATIONS: usize = 2 * MIDDLE;

const MIDDLE_STARTS: usize = MIDDLE + 1;

const MIDDLE_STACK: usize = MIDDLE_VARIABLES + 2;

const LARGE: usize = 512;

const LARGE_VARIABLES: usize = 32 + 6 * LARGE;

const LARGE_EQUATIONS: usize = 2 * LARGE;

const LARGE_STARTS: usize = LARGE + 1;

const LARGE_STACK: usize = LARGE_VARIABLES + 2;

// Refusals 12 and 13, or the rows, from the solved table. `firsts` is room for the rows' classes.
fn answer(places: Places, firsts: &mut [u32], sheet: &mut [u8]) -> Result<(), Refusal>
    requires { Answerable places.table.now places.at places.terms.now places.starts.now places.marks.now firsts.old sheet.old }
    ensures { Told places.entry.table.now sheet.old result sheet.new }
{
    // Marks from OPENED on are of types that are not determined, marks from HEAVY on of types that weigh more than 64.
    if let Some(place) = places.first_above(OPENED) {
        return Err(Refusal { number: 12, place });
    }
    if let Some(place) = places.first_above(HEAVY) {
        return Err(Refusal { number: 13, place });
    }
    places.write_rows(firsts, sheet);
    Ok(())
}

// Refusals 11 to 13, or the rows, from the constraints of a readable table.
fn solve_types(problem: Problem, mut work: Work, sheet: &mut [u8]) -> Result<(), Refusal>
    requires checkable { Checkable problem.table.now sheet.old }
    requires ready { Ready problem.table.now problem.shapes.now problem.equations.now problem.starts.now }
    requires work_room { WorkRoom problem.table.now work.terms.now work.stack.now work.marks.now }
    ensures { Told problem.entry.table.now sheet.old result sheet.new }
{
    if let Err(place) = solving::solve(problem, &mut work) {
        return Err(Refusal { number: 11, place });
    }
    let table = problem.table;
    let v = constraints::variable(problem.starts, table::nodes(table));
    let Work {
        terms,
        stack,
        marks,
    } = work;
    let places = Places {
        table,
        at: table::nodes_offset(table),
        terms: &terms[..v],
        starts: problem.starts,
        marks: &marks[..v],
    };
    answer(places, &mut stack[..v], sheet)
}

// The same of a table that fits work arrays of these sizes.
fn check_sized<
    const VARIABLES: usize,
    const EQUATIONS: usize,
    const STARTS: usize,
    const STACK: usize,
>(table: &[u8], sheet: &mut [u8]) -> Result<(), Refusal>
    requires checkable { Checkable table.now sheet.old }
    requires sizes { SizesFit (node_count table.now) VARIABLES EQUATIONS STARTS STACK }
    ensures { Told table.now sheet.old result sheet.new }
{
    let mut shapes = [0u32; VARIABLES];
    let mut equations = [0u32; EQUATIONS];
    let mut starts = [0u32; STARTS];
    let at = table::nodes_offset(table);
    constraints::build(table, at, &mut shapes, &mut equations, &mut starts);
    let problem = Problem {
        table,
        shapes: &shapes,
        equations: &equations,
        starts: &starts,
    };
    let mut terms = [0u32; VARIABLES];
    let mut stack = [0u32; STACK];
    let mut marks = [0u8; VARIABLES];
    let work = Work {
        terms: &mut terms,
        stack: &mut stack,
        marks: &mut marks,
    };
    solve_types(problem, work, sheet)
}

// Refusals 10 to 13 in order, or the rows of the only typing, of a table that has been read.
pub fn check_readable(table: &[u8], sheet: &mut [u8]) -> Result<(), Refusal>
    requires { Readable table.now }
    ensures { (answer_of result ≡ answered (verdict table.now (length sheet.old))) ×
        (sheet.new ≡ sheet_after (verdict table.now (length sheet.old)) sheet.old) }
{
    let nodes = table::nodes(table);
    if sheet.len() != 64 * (table::identifiers(table) + nodes) {
        return Err(Refusal {
            number: 10,
            place: 0,
        });
    }
    if nodes <= SMALL {
        return check_sized::<SMALL_VARIABLES, SMALL_EQUATIONS, SMALL_STARTS, SMALL_STACK>(
            table, sheet,
        );
    }
    if nodes <= MIDDLE {
        return check_sized::<MIDDLE_VARIABLES, MIDDLE_EQUATIONS, MIDDLE_STARTS, MIDDLE_STACK>(
            table, sheet,
        );
    }
    check_sized::<LARGE_VARIABLES, LARGE_EQUATIONS, LARGE_STARTS, LARGE_STACK>(table, sheet)
}

// Check: refusals 1 to 13 in order, or the rows of the only typing.
pub fn check(table: &[u8], sheet: &mut [u8]) -> Result<(), Refusal>
    ensures { (answer_of result ≡ answered (verdict table.now (length sheet.old))) ×
        (sheet.new ≡ sheet_after (verdict table.now (length sheet.old)) sheet.old) }
{
    reading::read(table)?;
    check_readable(table, sheet)
}
