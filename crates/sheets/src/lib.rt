// The places of a table: identifiers first, then nodes. The least place whose mark is too high, and the rows of the sheet.
#![tactic(auto)]

ghost use Rattle.std.specs.Prelude.{◌≡◌, ◌+◌, ◌*◌, ◌<◌, ◌≤◌, length, get_or};
ghost use Rattle.rules.specs.Tables.{table_of};
ghost use Rattle.table.specs.Layout.{Laid};
ghost use Rattle.terms.specs.Words.{word_form, word_left};
ghost use Rattle.terms.specs.Terms.{Terms, class_in};
ghost use Rattle.typing.specs.Places.{place_var, place_count};
ghost use Rattle.sheets.specs.Rows.{PlacesIn, MarkBelow, FirstPlace, RowsFit, RowsWritten};
ghost use Rattle.sheets.specs.Steps.{TypedIf, FailsIf};
ghost use Rattle.sheets.specs.Steps.{word_code, TypePut, ClassFits, ClassPut, RowsTo};

use table::NodeCategory;
use terms::Term;

// The bytes of a row. conforms, batch, listing and text name it too: table, the one crate that all of these but text share, knows no sheets.
const ROW: usize = 64;

// The codes of POW and × in a row: numbers, since they are the sheet's bytes (C interface). fitting, which has them too, shares no crate of
// code with this one.
const POWER_CODE: u8 = 3;

const PRODUCT_CODE: u8 = 4;

// The places of a table whose node records begin at `at`: the terms of its variables with their marks, and in `starts` its nodes' variables.
// `PlacesIn` stays a clause. Tried, and the proof didn't close: a ghost field, whose fact has to be a proposition, and the terms' codes go by cases.
#[derive(Clone, Copy)]
pub struct Places<'a> {
    pub table: &'a [u8],
    pub at: usize,
    pub terms: &'a [u32],
    pub starts: &'a [u32],
    pub marks: &'a [u8],
}

// The code of a term's outermost constructor.
fn code(w: u32) -> u8
    ensures { result ≡ word_code (word_form w) (word_left w) }
{
    match Term::from(w) {
        Term::Power(_) => POWER_CODE,
        Term::Product(..) | Term::Link(_) => PRODUCT_CODE,
        _ => (terms::left(w) % 256) as u8,
    }
}

// Writes the codes of the type of v from at on, never past end, and says where they end. A slice of the row would spare `end` alone: a second
// part begins where the first ends.
fn write_type(terms: &[u32], v: usize, sheet: &mut [u8], at: usize, end: usize) -> usize
    requires { Terms (length terms.now) terms.now × (v < length terms.now) × (end ≤ length sheet.old) }
    ensures { TypePut terms.now v sheet.old at end result sheet.new }
{
    if at >= end {
        return at;
    }
    let w = terms[terms::class(terms, v)];
    sheet[at] = code(w);
    match Term::from(w) {
        Term::Power(part) => write_type(terms, part, sheet, at + 1, end),
        Term::Product(first, second) => {
            let next = write_type(terms, first, sheet, at + 1, end);
            write_type(terms, second, sheet, next, end)
        }
        _ => at + 1,
    }
}

impl Places<'_> {
    fn count(&self) -> usize
        requires { Laid self.now.table.now self.now.at }
        ensures { result ≡ place_count (table_of self.now.table.now) }
    {
        table::identifiers(self.table) + table::nodes(self.table)
    }

    // Whether place p has a type: an identifier has one, and a node that is an expression.
    fn has_type(&self, p: usize) -> bool
        requires { Laid self.now.table.now self.now.at × (p < place_count (table_of self.now.table.now)) }
        ensures { TypedIf (table_of self.now.table.now) p result }
    {
        let identifiers = table::identifiers(self.table);
        if p < identifiers {
            return true;
        }
        table::category(table::kind(self.table, self.at, p - identifiers))
            == Some(NodeCategory::Expression)
    }

    // The class of place p.
    fn place_class(&self, p: usize) -> usize
        requires { PlacesIn self.now.table.now self.now.at self.now.terms.now self.now.starts.now self.now.marks.now ×
            (p < place_count (table_of self.now.table.now)) }
        ensures { (result ≡ class_in self.now.terms.now (place_var (table_of self.now.table.now) p)) × (result < length self.now.terms.now) }
    {
        let identifiers = table::identifiers(self.table);
        if p < identifiers {
            return terms::class(self.terms, p);
        }
        terms::class(self.terms, terms::right_side(self.starts[p - identifiers]))
    }

    // Whether place p has a type whose mark is not below the limit.
    fn is_above(&self, limit: u8, p: usize) -> bool
        requires { PlacesIn self.now.table.now self.now.at self.now.terms.now self.now.starts.now self.now.marks.now ×
            (p < place_count (table_of self.now.table.now)) }
        ensures { FailsIf (table_of self.now.table.now) (MarkBelow (table_of self.now.table.now) self.now.terms.now self.now.marks.now limit) p result }
    {
        if !self.has_type(p) {
            return false;
        }
        let c = self.place_class(p);
        limit <= self.marks[c]
    }

    // The least place whose mark is not below the limit.
    pub fn first_above(&self, limit: u8) -> Option<usize>
        requires { PlacesIn self.now.table.now self.now.at self.now.terms.now self.now.starts.now self.now.marks.now }
        ensures { FirstPlace (table_of self.now.table.now) (MarkBelow (table_of self.now.table.now) self.now.terms.now self.now.marks.now limit) result }
    {
        (0..self.count()).find(|p| self.is_above(limit, *p))
    }

    // Writes the codes of class c into the row of place p, or copies them from its first row, which `firsts` has, counted from 1; 0 is none:
    // `firsts` are words lent from Check's stack, the same fixed memory that merging uses, so no Options (project rule).
    fn write_class(&self, firsts: &mut [u32], sheet: &mut [u8], c: usize, p: usize)
        requires { ClassFits self.now.terms.now self.now.marks.now firsts.old sheet.old c p }
        ensures { ClassPut self.now.terms.now self.now.marks.now firsts.old sheet.old c p firsts.new sheet.new (get_or firsts.old c 0) }
    {
        let q = firsts[c] as usize;
        if q == 0 {
            firsts[c] = p as u32 + 1;
            write_type(self.terms, c, sheet, ROW * p, ROW * p + ROW);
            return;
        }
        let from = ROW * (q - 1);
        let n = usize::from(self.marks[c]);
        sheet.copy_within(from..from + n, ROW * p);
    }

    // Writes the row of place p: the codes of its type, then zeros; zeros alone where it has no type.
    fn write_row(&self, firsts: &mut [u32], sheet: &mut [u8], p: usize)
        requires places_in { PlacesIn self.now.table.now self.now.at self.now.terms.now self.now.starts.now self.now.marks.now }
        requires rows_fit { RowsFit self.now.table.now self.now.terms.now self.now.marks.now firsts.old sheet.old }
        requires p_bound { (p < place_count (table_of self.now.table.now)) ×
            RowsTo (table_of self.now.table.now) self.now.terms.now self.now.marks.now firsts.old sheet.old p }
        ensures { RowsTo (table_of self.now.table.now) self.now.terms.now self.now.marks.now firsts.new sheet.new (p + 1) }
    {
        sheet[ROW * p..ROW * p + ROW].fill(0);
        if self.has_type(p) {
            let c = self.place_class(p);
            self.write_class(firsts, sheet, c, p);
        }
    }

    // Writes the sheet: a row of 64 bytes for each place. All types are determined, and none weighs more than 64.
    pub fn write_rows(&self, firsts: &mut [u32], sheet: &mut [u8])
        requires places_in { PlacesIn self.now.table.now self.now.at self.now.terms.now self.now.starts.now self.now.marks.now }
        requires rows_fit { RowsFit self.now.table.now self.now.terms.now self.now.marks.now firsts.old sheet.old }
        ensures { RowsWritten (table_of self.now.table.now) self.now.terms.now self.now.marks.now sheet.new }
    {
        firsts.fill(0);
        for p in 0..self.count() {
            self.write_row(firsts, sheet, p);
        }
    }
}
