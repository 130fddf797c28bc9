// The public library; falgrumi_c exports its functions to C and Rust.
#![tactic(auto)]

ghost use Rattle.std.specs.Prelude.{◌≡◌, length};
ghost use Rattle.rules.specs.Verdict.{sheet_after};
ghost use Rattle.typing.specs.Model.{verdict};
ghost use Rattle.rules.specs.Evaluation.{evaluation};
ghost use Rattle.rules.specs.Merges.{union_in};
ghost use Rattle.conforms.specs.Conforming.{conforming};
ghost use Rattle.falgrumi.specs.Guarantee.{checked_evaluation, guarded_of};
ghost use Rattle.reports.specs.Told.{TellsEnd, TellsRun};
ghost use Rattle.unions.specs.Answers.{cells_after};
ghost use Rattle.falgrumi.specs.Answers.{TellsReport, TellsMerge};

use evaluate::{GuardedRun, Inputs};
use reading::Refusal;
use reports::{Ending, Evaluation, Truth};
use unions::MergeError;

// The C interface fixes the parameters of the exports, that numbers tell refusals, and that a truth is a byte.

// Check: the refusal's number, 0 where the table is accepted; its place goes to `place`.
#[unsafe(no_mangle)]
pub extern "C" fn falgrumi_check(table: &[u8], sheet: &mut [u8], place: &mut u64) -> u8
    ensures { TellsEnd (verdict table.now (length sheet.old)) result place.new ×
        (sheet.new ≡ sheet_after (verdict table.now (length sheet.old)) sheet.old) }
{
    let checked = checker::check(table, sheet);
    match checked {
        Ok(()) => {
            *place = 0;
            0
        }
        Err(r) => {
            *place = r.place as u64;
            r.number as u8
        }
    }
}

// Evaluate: the refusal's number, 0 where there is none. Its place goes to `place`, the condition's truth to `truth`, the
// visits made to `steps`.
#[unsafe(no_mangle)]
pub extern "C" fn falgrumi_evaluate(
    table: &[u8],
    values: &[u8],
    budget: u32,
    truth: &mut u8,
    place: &mut u64,
    steps: &mut u32,
) -> u8
    ensures { TellsRun (evaluation table.now values.now budget).end (evaluation table.now values.now budget).steps
        result truth.new place.new steps.new }
{
    let e = evaluate::evaluate(table, values, budget);
    reports::tell(e, truth, place, steps)
}

// Whether the values give each free identifier a value of the type in its row of the sheet.
#[unsafe(no_mangle)]
pub extern "C" fn falgrumi_conforms(table: &[u8], sheet: &[u8], values: &[u8]) -> bool
    ensures { result ≡ conforming table.now sheet.now values.now }
{
    conforms::conforms(table, sheet, values)
}

// A checked evaluation: Check's refusal, or the evaluation of an accepted table, and whether the values have the types that Check wrote: then
// demand 3's guarantee holds of it. The table is read once for both.
pub fn checked_evaluation(
    table: &[u8],
    sheet: &mut [u8],
    values: &[u8],
    budget: u32,
) -> Result<GuardedRun, Refusal>
    ensures { (guarded_of result ≡ checked_evaluation table.now (length sheet.old) values.now budget) ×
        (sheet.new ≡ sheet_after (verdict table.now (length sheet.old)) sheet.old) }
{
    let height = reading::read_height(table)?;
    checker::check_readable(table, sheet)?;
    let inputs = Inputs {
        table,
        values,
        sheet,
        budget,
    };
    let run = inputs.evaluate_sized(height);
    Ok(run)
}

// A checked evaluation: the number of Check's refusal, else of the evaluation's, 0 where there is none. Whether the values
// conform goes to `conforms`, the rest as in `falgrumi_evaluate`.
#[unsafe(no_mangle)]
pub extern "C" fn falgrumi_checked_evaluate(
    table: &[u8],
    sheet: &mut [u8],
    values: &[u8],
    budget: u32,
    truth: &mut u8,
    place: &mut u64,
    steps: &mut u32,
    conforms: &mut u8,
) -> u8
    ensures { TellsReport (checked_evaluation table.now (length sheet.old) values.now budget)
        result truth.new place.new steps.new conforms.new ×
        (sheet.new ≡ sheet_after (verdict table.now (length sheet.old)) sheet.old) }
{
    match checked_evaluation(table, sheet, values, budget) {
        Err(r) => {
            *conforms = 0;
            let e = Evaluation {
                ending: Ending::Refused(r),
                steps: 0,
            };
            reports::tell(e, truth, place, steps)
        }
        Ok(guarded) => {
            *conforms = u8::from(guarded.conforms);
            reports::tell(guarded.evaluation, truth, place, steps)
        }
    }
}

// The refusals of values that are not sets of one type, and of a value that weighs over 256. C's answer fixes the numbers; `Lack` of operations
// has them too, but this crate does not rest on operations.
const UNFIT: u8 = 15;

const HEAVY: u8 = 18;

// The values of the two lowest free identifiers, merged: the refusal's number, 15 where they are not sets of one type, 18 where their union
// would weigh over 256, else 0. Its place goes to `place`, the comparisons of the whole merge to `comparisons`, the bytes of the union to `bytes`,
// and its cells to the front of `cells` if they fit there.
#[unsafe(no_mangle)]
pub extern "C" fn falgrumi_merge(
    table: &[u8],
    values: &[u8],
    cells: &mut [u8],
    place: &mut u64,
    comparisons: &mut u64,
    bytes: &mut u64,
) -> u8
    ensures { TellsMerge (union_in table.now values.now) result place.new comparisons.new bytes.new ×
        (cells.new ≡ cells_after (union_in table.now values.now) cells.old) }
{
    let answer = unions::merge_values(table, values, cells);
    *place = 0;
    *comparisons = 0;
    *bytes = 0;
    match answer {
        Ok(merged) => {
            *comparisons = merged.comparisons;
            *bytes = merged.bytes as u64;
            0
        }
        Err(error) => match error {
            MergeError::Refused(refusal) => {
                *place = refusal.place as u64;
                refusal.number as u8
            }
            MergeError::Unfit => UNFIT,
            MergeError::Heavy(n) => {
                *comparisons = n;
                HEAVY
            }
        },
    }
}
