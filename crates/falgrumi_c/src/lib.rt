// The public library for C: each export calls the function of falgrumi that has its name, and states its clauses again. A crate is a library or
// a static library, not both, so the exports stand here again. The C interface fixes their parameters, and that numbers tell refusals.
#![tactic(auto)]

ghost use Rattle.std.specs.Prelude.{◌≡◌, length};
ghost use Rattle.rules.specs.Verdict.{sheet_after};
ghost use Rattle.typing.specs.Model.{verdict};
ghost use Rattle.rules.specs.Evaluation.{evaluation};
ghost use Rattle.rules.specs.Merges.{union_in};
ghost use Rattle.conforms.specs.Conforming.{conforming};
ghost use Rattle.falgrumi.specs.Guarantee.{checked_evaluation};
ghost use Rattle.reports.specs.Told.{TellsEnd, TellsRun};
ghost use Rattle.unions.specs.Answers.{cells_after};
ghost use Rattle.falgrumi.specs.Answers.{TellsReport, TellsMerge};

// Check: the refusal's number, 0 where the table is accepted; its place goes to `place`.
#[unsafe(no_mangle)]
pub extern "C" fn falgrumi_check(table: &[u8], sheet: &mut [u8], place: &mut u64) -> u8
    ensures { TellsEnd (verdict table.now (length sheet.old)) result place.new ×
        (sheet.new ≡ sheet_after (verdict table.now (length sheet.old)) sheet.old) }
{
    falgrumi::falgrumi_check(table, sheet, place)
}

// Evaluate: the refusal's number, 0 where there is none. Its place goes to `place`, the condition's truth to `truth`, the
// visits made to `steps`.
#[unsafe(no_mangle)]
pub extern "C" fn falgrumi_evaluate(
    table: &[u8],
    values: &[u8],
    budget: u32,
    truth: &mut u8,
    place: &mut u64,
    steps: &mut u32,
) -> u8
    ensures { TellsRun (evaluation table.now values.now budget).end (evaluation table.now values.now budget).steps
        result truth.new place.new steps.new }
{
    falgrumi::falgrumi_evaluate(table, values, budget, truth, place, steps)
}

// Whether the values give each free identifier a value of the type in its row of the sheet.
#[unsafe(no_mangle)]
pub extern "C" fn falgrumi_conforms(table: &[u8], sheet: &[u8], values: &[u8]) -> bool
    ensures { result ≡ conforming table.now sheet.now values.now }
{
    falgrumi::falgrumi_conforms(table, sheet, values)
}

// A checked evaluation: the number of Check's refusal, else of the evaluation's, 0 where there is none. Whether the values
// conform goes to `conforms`, the rest as in `falgrumi_evaluate`.
#[unsafe(no_mangle)]
pub extern "C" fn falgrumi_checked_evaluate(
    table: &[u8],
    sheet: &mut [u8],
    values: &[u8],
    budget: u32,
    truth: &mut u8,
    place: &mut u64,
    steps: &mut u32,
    conforms: &mut u8,
) -> u8
    ensures { TellsReport (checked_evaluation table.now (length sheet.old) values.now budget)
        result truth.new place.new steps.new conforms.new ×
        (sheet.new ≡ sheet_after (verdict table.now (length sheet.old)) sheet.old) }
{
    falgrumi::falgrumi_checked_evaluate(table, sheet, values, budget, truth, place, steps, conforms)
}

// The values of the two lowest free identifiers, merged: the refusal's number, 15 where they are not sets of one type, 18 where their union
// would weigh over 256, else 0. Its place goes to `place`, the comparisons of the whole merge to `comparisons`, the bytes of the union to `bytes`,
// and its cells to the front of `cells` if they fit there.
#[unsafe(no_mangle)]
pub extern "C" fn falgrumi_merge(
    table: &[u8],
    values: &[u8],
    cells: &mut [u8],
    place: &mut u64,
    comparisons: &mut u64,
    bytes: &mut u64,
) -> u8
    ensures { TellsMerge (union_in table.now values.now) result place.new comparisons.new bytes.new ×
        (cells.new ≡ cells_after (union_in table.now values.now) cells.old) }
{
    falgrumi::falgrumi_merge(table, values, cells, place, comparisons, bytes)
}
