// Reading a table: refusals 1 to 9.
#![tactic(auto)]

ghost use Rattle.std.specs.Prelude.{◌≡◌, Some};
ghost use Rattle.rules.specs.Readable.{Header};
ghost use Rattle.rules.specs.Ends.{require};
ghost use Rattle.rules.specs.Reading.{reading};
ghost use Rattle.table.specs.Layout.{Fielded};
ghost use Rattle.reading.specs.Answers.{refusal_text, passed, RequiresAll, reading_of, reading_records, reading_tree, height_of, measured, reading_height};

use std::fmt;

// A refusal's number and place. The number stays one (project rule: it is C's answer). It is a usize, small as it is: with a u8
// the compiler copies the answers that hold it byte by byte.
#[derive(Clone, Copy, PartialEq, Eq, Debug)]
pub struct Refusal {
    pub number: usize,
    pub place: usize,
}

impl fmt::Display for Refusal {
    ghost output = { λ r. Some (refusal_text r) };

    fn fmt<W: fmt::Write>(&self, f: &mut fmt::Formatter<W>) -> fmt::Result {
        write!(f, "refused {} {}", self.number, self.place)
    }
}

// The refusal at place 0, unless the test holds.
fn require(number: usize, holds: bool) -> Result<(), Refusal>
    ensures { passed result ≡ require number 0 holds }
{
    if holds {
        Ok(())
    } else {
        Err(Refusal { number, place: 0 })
    }
}

// The refusal at the place that a search has found, if it has found one.
fn require_none(number: usize, found: Option<usize>) -> Result<(), Refusal>
    ensures { RequiresAll number found result }
{
    match found {
        None => Ok(()),
        Some(place) => Err(Refusal { number, place }),
    }
}

// Refusals 7 to 9 of a table whose records are right, or the root's height.
fn read_tree(table: &[u8], at: usize) -> Result<usize, Refusal>
    requires { Fielded table.now at }
    ensures { height_of result ≡ measured (reading_tree table.now) }
{
    require_none(7, trees::first_bad_parent(table, at))?;
    // A height for each node (fixed memory).
    let mut heights = [0; 512];
    require_none(8, trees::set_heights(table, at, &mut heights))?;
    require_none(9, binding::first_bad_binding(table, at))?;
    Ok(trees::root_height(table, &heights))
}

// Refusals 4 to 9 of a table whose header is right, or the root's height.
fn read_records(table: &[u8]) -> Result<usize, Refusal>
    requires { Header table.now }
    ensures { height_of result ≡ measured (reading_records table.now) }
{
    let at = table::nodes_offset(table);
    require_none(4, table::first_bad_size(table))?;
    require_none(5, table::first_bad_bind(table))?;
    require_none(6, table::first_bad_node(table, at))?;
    read_tree(table, at)
}

// Refusals 1 to 9 in order, with the least place of each, or the root's height, 0 where the table has no node (`reading_height` of its clause).
pub fn read_height(table: &[u8]) -> Result<usize, Refusal>
    ensures { height_of result ≡ reading_height table.now }
{
    require(1, table::is_headed(table))?;
    require(2, table::is_limited(table))?;
    require(3, table::is_laid_out(table))?;
    read_records(table)
}

// Refusals 1 to 9.
pub fn read(table: &[u8]) -> Result<(), Refusal>
    ensures { reading_of table.now result ≡ reading table.now }
{
    read_height(table)?;
    Ok(())
}
