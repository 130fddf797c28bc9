// The report of an evaluation: of an evaluator's answer, and in numbers for C.
#![tactic(auto)]

ghost use Rattle.std.specs.Prelude.{Some, ◌≡◌};
ghost use Rattle.rules.specs.Ends.{done};
ghost use Rattle.reports.specs.declared.Ending.TheVariants.{Decided};
ghost use Rattle.reports.specs.Result.{ending_of, RefusedAt, OfBudget, Reports};
ghost use Rattle.reports.specs.Told.{byte_of, name_of, text_of, InByte, TellsRun};

use reading::Refusal;
use std::fmt;
use visits::Held;

#[derive(Clone, Copy, Debug, PartialEq, Eq)]
pub enum Truth {
    True,
    False,
}

impl From<bool> for Truth {
    ghost from_gives = { λ yes t. ending_of (Decided t) ≡ done yes };

    fn from(yes: bool) -> Truth {
        if yes { Truth::True } else { Truth::False }
    }
}

// 1 for true, 0 for false.
impl From<Truth> for u8 {
    ghost from_gives = { λ t b. b ≡ byte_of t };

    fn from(t: Truth) -> u8 {
        match t {
            Truth::True => 1,
            Truth::False => 0,
        }
    }
}

impl fmt::Display for Truth {
    ghost output = { λ t. Some (name_of t) };

    fn fmt<W: fmt::Write>(&self, f: &mut fmt::Formatter<W>) -> fmt::Result {
        match self {
            Truth::True => write!(f, "true"),
            Truth::False => write!(f, "false"),
        }
    }
}

// How an evaluation ends (project rule: an enum of a truth enum and a struct of a refusal's number and place, beside the visits).
#[derive(Drop)]
pub enum Ending {
    Decided(Truth),
    Refused(Refusal),
}

impl fmt::Display for Ending {
    ghost output = { λ e. Some (text_of e) };

    fn fmt<W: fmt::Write>(&self, f: &mut fmt::Formatter<W>) -> fmt::Result {
        match self {
            Ending::Decided(truth) => write!(f, "{truth}"),
            Ending::Refused(refusal) => write!(f, "{refusal}"),
        }
    }
}

// The end, and the visits made.
#[derive(Drop)]
pub struct Evaluation {
    pub ending: Ending,
    pub steps: u32,
}

pub fn refused(refusal: Refusal, steps: u32) -> Evaluation
    ensures { RefusedAt refusal.number refusal.place steps result }
{
    Evaluation {
        ending: Ending::Refused(refusal),
        steps: steps,
    }
}

// The visits made are those that the budget no longer has.
pub fn ended(held: Held, budget: u32) -> Evaluation
    requires { OfBudget budget held }
    ensures { Reports budget held result }
{
    match held {
        Held::Truth { yes, left } => Evaluation {
            ending: Ending::Decided(Truth::from(yes)),
            steps: budget - left,
        },
        Held::Refused { refusal, left } => refused(refusal, budget - left),
    }
}

// Answers the number of an evaluation's refusal, 0 where there is none, and writes the rest: what falgrumi_evaluate answers to C.
pub fn tell(e: Evaluation, truth: &mut u8, place: &mut u64, steps: &mut u32) -> u8
    requires { InByte (ending_of e.ending) }
    ensures { TellsRun (ending_of e.ending) e.steps result truth.new place.new steps.new }
{
    *steps = e.steps;
    let ending = e.ending;
    match ending {
        Ending::Decided(t) => {
            *truth = u8::from(t);
            *place = 0;
            0
        }
        Ending::Refused(x) => {
            *truth = 0;
            *place = x.place as u64;
            x.number as u8
        }
    }
}
