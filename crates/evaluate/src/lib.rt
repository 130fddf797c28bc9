// Evaluate: refusals 1 to 9, then 14, then the condition in an arena with room for it, and the report.
#![tactic(auto)]

ghost use Rattle.std.specs.Prelude.{◌≡◌, false, ℕ};
ghost use Rattle.rules.specs.Tables.{table_of};
ghost use Rattle.rules.specs.Readable.{Readable};
ghost use Rattle.rules.specs.Evaluation.{evaluation};
ghost use Rattle.reports.specs.Result.{ending_of, RefusedAt};
ghost use Rattle.evaluate.specs.Judged.{Judged};
ghost use Rattle.reading.specs.Answers.{root_height};
ghost use Rattle.evaluate.specs.Arenas.{ArenaReady, RoomFor, RootReady, RootReported, Rebinds};

mod arenas;

use reading::Refusal;
use reports::{Ending, Evaluation, Truth};

// An evaluation, and whether the values have the types that a sheet gives to the identifiers.
#[derive(Drop)]
pub struct GuardedRun {
    pub evaluation: Evaluation,
    pub conforms: bool,
}

// What an evaluation is made of: a table, the values of its identifiers, the sheet that these are tested against, and the budget.
#[derive(Clone, Copy)]
pub struct Inputs<'a> {
    pub table: &'a [u8],
    pub values: &'a [u8],
    pub sheet: &'a [u8],
    pub budget: u32,
}

// 14 at an identifier.
fn unloaded(x: usize) -> GuardedRun
    ensures { RefusedAt 14 x 0 result.evaluation × (result.conforms ≡ false) }
{
    GuardedRun {
        evaluation: reports::refused(
            Refusal {
                number: 14,
                place: x,
            },
            0,
        ),
        conforms: false,
    }
}

// The condition of a table whose values stand in the arena; without nodes it is absent, which is true.
fn evaluate_at(table: &[u8], env: &[u32; 32], s: &mut [u64], top: usize, budget: u32) -> Evaluation
    requires { RootReady table.now env.now s.old top }
    ensures { RootReported table.now env.now s.old top budget result }
{
    let count = table::nodes(table);
    if count == 0 {
        return Evaluation {
            ending: Ending::Decided(Truth::True),
            steps: 0,
        };
    }
    let held = evaluators::eval_pred(table, env, s, top, count - 1, budget);
    reports::ended(held, budget)
}

// Marks the values that are seen to be functions, so that an application need not ask it anew at each visit.
fn mark(table: &[u8], s: &[u64], env: &mut [u32; 32])
    requires { (top : ℕ) × RootReady table.now env.old s.now top }
    ensures { Rebinds table.now s.now env.old env.new }
{
    let count = table::identifiers(table);
    for x in 0..count {
        let at = env[x] % visits::FUNCTION;
        if operations::known_function(s, at as usize) {
            env[x] = visits::FUNCTION + at;
        }
    }
}

// The cells that the lowest level of a condition takes, and those of a level above it.
const LOWEST: usize = 130;

const LEVEL: usize = 384;

// The cells that the condition takes above its values: none where no node of the table builds a value.
fn room(table: &[u8], height: usize) -> usize
    requires { Readable table.now × (height ≡ root_height (table_of table.now)) }
    ensures { RoomFor table.now result }
{
    if constants::builds(table) {
        return LOWEST + LEVEL * (height - 1);
    }
    0
}

impl Inputs<'_> {
    // Evaluates a readable table over the arena s, in which its constants stand first, and then the values of its identifiers; and tests these
    // against the sheet.
    fn evaluate_in(&self, s: &mut [u64]) -> GuardedRun
        requires { ArenaReady self.now.table.now self.now.values.now s.old }
        ensures { Judged self.now.table.now self.now.values.now self.now.sheet.now self.now.budget result }
    {
        constants::put_constants(self.table, s);
        let count = table::nodes(self.table);
        match buffer::load(self.table, self.values, s, count) {
            Err(fault) => unloaded(fault.identifier),
            Ok(loaded) => {
                let mut env = loaded.at;
                let conforms = conforms::loaded_conform(self.table, s, &env, self.sheet);
                mark(self.table, s, &mut env);
                let evaluation = evaluate_at(self.table, &env, s, loaded.end, self.budget);
                GuardedRun {
                    evaluation,
                    conforms,
                }
            }
        }
    }

    // Evaluates a readable table, whose root has the height, over an arena of its size.
    pub fn evaluate_sized(&self, height: usize) -> GuardedRun
        requires { Readable self.now.table.now × (height ≡ root_height (table_of self.now.table.now)) }
        ensures { Judged self.now.table.now self.now.values.now self.now.sheet.now self.now.budget result }
    {
        let held = buffer::cells_at_most(table::identifiers(self.table), self.values.len());
        let need = 1 + table::nodes(self.table) + held + room(self.table, height);
        self.in_smallest_arena(need)
    }
}

// Evaluate: refusals 1 to 9, then 14, and then the condition's end.
pub fn evaluate(table: &[u8], values: &[u8], budget: u32) -> Evaluation
    ensures { (ending_of result.ending ≡ (evaluation table.now values.now budget).end) ×
        (result.steps ≡ (evaluation table.now values.now budget).steps) }
{
    match reading::read_height(table) {
        Err(refusal) => reports::refused(refusal, 0),
        Ok(height) => {
            // No sheet: whether the values conform is not asked.
            let inputs = Inputs {
                table,
                values,
                sheet: &[],
                budget,
            };
            let run = inputs.evaluate_sized(height);
            run.evaluation
        }
    }
}
