// Words that hold the term of a variable: its form, and two numbers of 12 bits. The terms stay packed, so that those of a table fit
// a fixed array of four bytes each; `Term` is one taken apart. Lists of them stay slices: callers lend parts of their arrays, and
// contracts speak of the list before and after, which a struct round it would not shorten.
#![tactic(auto)]

ghost use Rattle.std.specs.Prelude.{◌≡◌, ◌+◌, ◌*◌, ◌/◌, ◌%◌, ◌<◌, ◌≤◌, ◌-◌, length, set};
ghost use Rattle.unification.specs.Problem.{atom_from};
ghost use Rattle.unification.specs.Problem as problem;
ghost use Rattle.unification.specs.Codes.{AtomCode};
ghost use Rattle.terms.specs.Terms.{Terms, class_in};
ghost use Rattle.terms.specs.Words.{word_form, word_left, word_right, ShapeWord, LinkWord};
ghost use Rattle.terms.specs.Decoding.{TermIs};
ghost use Rattle.terms.specs.Stacks.{Stacked, TopIs};

// What a word holds: an atom its code, POW its part, a product both its parts, and a link the smaller variable, which has the same type.
#[derive(Clone, Copy)]
pub enum Term {
    Open,
    Atom(usize),
    Power(usize),
    Product(usize, usize),
    Link(usize),
}

// The forms as a word has them (a word is made by a function for each form, not from a `Term`: they ask different things of their numbers).
const OPEN: u32 = 0;

const ATOM: u32 = 1;

const POWER: u32 = 2;

const PRODUCT: u32 = 3;

const LINK: u32 = 4;

// A number's room in a word, and the form's place. An atom's code and a lone part stand on the left, a link's variable on the right.
const SIDE: u32 = 4096;

const FORM: u32 = 16777216;

pub fn form(w: u32) -> u32
    ensures { result ≡ word_form w }
{
    w / FORM
}

pub fn left(w: u32) -> usize
    ensures { result ≡ word_left w }
{
    (w / SIDE % SIDE) as usize
}

pub fn right(w: u32) -> usize
    ensures { result ≡ word_right w }
{
    (w % SIDE) as usize
}

// The term that a word holds.
impl From<u32> for Term {
    ghost from_gives = { TermIs };

    fn from(w: u32) -> Term {
        match form(w) {
            OPEN => Term::Open,
            ATOM => Term::Atom(left(w)),
            POWER => Term::Power(left(w)),
            PRODUCT => Term::Product(left(w), right(w)),
            _ => Term::Link(right(w)),
        }
    }
}

pub fn open() -> u32
    ensures { ShapeWord result problem.unknown }
{
    OPEN
}

pub fn atom(code: usize) -> u32
    requires { (code < 4096) × AtomCode code }
    ensures { ShapeWord result (problem.leaf (atom_from code)) }
{
    ATOM * FORM + SIDE * (code as u32)
}

pub fn power(v: usize) -> u32
    requires { v < 4096 }
    ensures { ShapeWord result (problem.power v) }
{
    POWER * FORM + SIDE * (v as u32)
}

pub fn product(v: usize, u: usize) -> u32
    requires { (v < 4096) × (u < 4096) }
    ensures { ShapeWord result (problem.product v u) }
{
    PRODUCT * FORM + SIDE * (v as u32) + u as u32
}

pub fn link(u: usize) -> u32
    requires { u < 4096 }
    ensures { LinkWord result u }
{
    LINK * FORM + u as u32
}

// The equation between v and u, packed as terms are.
pub fn equation(v: usize, u: usize) -> u32
    requires { (v < 4096) × (u < 4096) }
    ensures { result ≡ v * 4096 + u }
{
    SIDE * (v as u32) + u as u32
}

// The two sides of an equation. They stand beside `left` and `right` because an equation has no form above its sides: the clause of `left_side`
// is `w / 4096`, and a caller of `right` for one side alone would be no plainer.
pub fn left_side(w: u32) -> usize
    ensures { result ≡ w / 4096 }
{
    (w / SIDE) as usize
}

pub fn right_side(w: u32) -> usize
    ensures { result ≡ w % 4096 }
{
    (w % SIDE) as usize
}

// The class of v, where links go to classes.
pub fn class(terms: &[u32], v: usize) -> usize
    requires { Terms (length terms.now) terms.now × (v < length terms.now) }
    ensures { (result ≡ class_in terms.now v) × (result < length terms.now) }
{
    match Term::from(terms[v]) {
        Term::Link(u) => u,
        _ => v,
    }
}

// Words put on one another in a lent buffer, of which the first `height` stand: no Vec, since Check has no heap (project rule).
#[derive(Drop)]
pub struct Stack<'a> {
    pub words: &'a mut [u32],
    pub height: usize,
}

impl<'a> Stack<'a> {
    pub fn push(&mut self, word: u32)
        requires { self.old.height < length self.old.words.now }
        ensures { Stacked self.old (set self.old.words.now self.old.height word) (self.old.height + 1) self.new }
    {
        self.words[self.height] = word;
        self.height += 1;
    }

    // The word on top.
    pub fn last(&self) -> Option<u32>
        requires { self.now.height ≤ length self.now.words.now }
        ensures { TopIs self.now result }
    {
        if self.height == 0 {
            None
        } else {
            Some(self.words[self.height - 1])
        }
    }

    // Takes the word on top off.
    pub fn pop(&mut self) -> Option<u32>
        requires { self.old.height ≤ length self.old.words.now }
        ensures top { TopIs self.old result }
        ensures rest { Stacked self.old self.old.words.now (self.old.height - 1) self.new }
    {
        let top = self.last()?;
        self.height -= 1;
        Some(top)
    }
}
