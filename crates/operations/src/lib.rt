// What each kind gives for its operands' values, by the codes of kinds (project rule): refusals 15 to 18, and values built in the arena. The arena
// and the operands' places stay apart: half of the operations write it, so a struct of them would be made anew for each call.
#![tactic(auto)]

ghost use Rattle.std.specs.Prelude.{◌≡◌, true};
ghost use Rattle.operations.specs.Outcomes.{ended, lack_number, OneReady, OneOf, SomeOperands, TwoReady, TwoOf, IsLight, LightOf, TestOf, LeafReady, LeafDone};
ghost use Rattle.operations.specs.Good.{SomeGood, FunctionSeen};
ghost use Rattle.functions.specs.Pairs.{KnownFunction};

mod double;
mod single;
mod tests;

// A value built at the arena's top, with where it ends; or one within the first operand, with where it stands; or the only
// cell of one that the caller writes.
#[derive(Clone, Copy, Debug, PartialEq, Eq)]
pub enum Outcome {
    Built(usize),
    Within(usize),
    Cell(u64),
}

// Why operands give no value, by the refusal's number: they do not have the kind's types; there is no least member, or no image; the
// integer does not have 32 bits; the value weighs over 256.
#[derive(Clone, Copy, Debug, PartialEq, Eq)]
pub enum Lack {
    Unlike = 15,
    NoValue = 16,
    Wide = 17,
    Heavy = 18,
}

impl From<Lack> for usize {
    ghost from_gives = { λ lack n. n ≡ lack_number lack };

    fn from(lack: Lack) -> usize {
        lack as usize
    }
}

// What has been built up to `end`, if it does not weigh too much.
fn built(end: Option<usize>) -> Result<Outcome, Lack>
    ensures { result ≡ ended end }
{
    end.map(|end| Outcome::Built(end)).ok_or(Lack::Heavy)
}

// Kinds 27, 33, 35, 36, 38 and 43: one operand, at a.
pub fn one(s: &mut [u64], kind: usize, a: usize, top: usize) -> Result<Outcome, Lack>
    requires { OneReady s.old a top }
    ensures { OneOf kind s.old a top s.new result }
{
    match kind {
        27 => built(products::singleton(s, a, top)),
        33 => single::power(s, a, top),
        35 => single::side(s, a, top, false),
        36 => single::side(s, a, top, true),
        38 => single::card(s, a),
        _ => single::choice(s, a),
    }
}

// Kinds 21 and 42, the leaves that are built: the given set a, with its size, and BOOL. Answers where the value ends that has
// been built at top.
pub fn leaf(s: &mut [u64], kind: usize, a: u64, size: u64, top: usize) -> usize
    requires { LeafReady kind a size s.old top }
    ensures { LeafDone kind a size s.old top s.new result }
{
    match kind {
        21 => products::elements(s, a, size, top),
        _ => products::booleans(s, top),
    }
}

// Whether operations of the kind build nothing: 37, 39 and 40.
pub fn is_light(kind: usize) -> bool
    ensures { result ≡ true → IsLight kind }
{
    matches!(kind, 37 | 39 | 40)
}

// These kinds, for the operands at a and b. That the first one is a function may be known. Inlined into both callers: a call of its own,
// with its answer in memory, took integer loops a sixth more instructions.
#[inline(always)]
pub fn light(s: &[u64], kind: usize, a: usize, b: usize, known: bool) -> Result<Outcome, Lack>
    requires { SomeOperands s.now a b × KnownFunction s.now a known × IsLight kind }
    ensures { LightOf kind s.now a b result }
{
    match kind {
        37 => double::apply(s, a, b, known),
        39 => double::sum(s, a, b, false),
        _ => double::sum(s, a, b, true),
    }
}

// Whether the value at a is seen to be a function without much work.
pub fn known_function(s: &[u64], a: usize) -> bool
    requires { SomeGood s.now a }
    ensures { FunctionSeen s.now a result }
{
    fitting::is_relation(s, a) && functions::flat_mapping(s, a)
}

// Kinds 28 to 32, 37 and 39 to 41: two operands, at a and b.
pub fn two(s: &mut [u64], kind: usize, a: usize, b: usize, top: usize) -> Result<Outcome, Lack>
    requires { TwoReady s.old a b top }
    ensures { TwoOf kind s.old a b top s.new result }
{
    match kind {
        28 => built(products::pair(s, a, b, top)),
        29 => double::merge(s, a, b, top, sets::UNION),
        30 => double::merge(s, a, b, top, sets::INTERSECTION),
        31 => double::merge(s, a, b, top, sets::DIFFERENCE),
        32 => double::product(s, a, b, top),
        37 | 39 | 40 => light(s, kind, a, b, false),
        _ => double::interval(s, a, b, top),
    }
}

// What a test of kind 6 to 9 answers for good operands, at a and b; none if they are not alike (15).
pub fn test(s: &[u64], kind: usize, a: usize, b: usize) -> Option<bool>
    requires { SomeOperands s.now a b }
    ensures { TestOf kind s.now a b result }
{
    // Two numbers need no further call.
    if fitting::numbers(s, a, b) {
        return tests::numbers(kind, s[a], s[b]);
    }
    match kind {
        6 => tests::equal(s, a, b),
        7 => tests::member(s, a, b),
        8 => tests::subset(s, a, b),
        // 9 takes numbers only.
        _ => None,
    }
}
