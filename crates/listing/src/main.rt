// The listing of a table: it is read whole from standard input, checked, and printed with the type of each place. A failed read or write ends
// the program by its error.
#![tactic(auto)]

ghost use Rattle.std.specs.Prelude.{◌&&◌, ◌≡◌, ◌≤◌, length, take};
ghost use Rattle.rules.specs.Reading.{headed, limited};
ghost use Rattle.listing.specs.Listing.{identifiers_of, places_of, listing_of};

use std::io;
use std::io::Write;

// The bytes of a place's row in a sheet, named here too: table, the crate to share it by, knows no sheets.
const ROW: usize = 64;

// Refusals 1 and 2.
fn has_counts(table: &[u8]) -> bool
    ensures { result ≡ (headed table.now && limited table.now) }
{
    table::is_headed(table) && table::is_limited(table)
}

// How many identifiers a table has, and how many places: 0 where it has no counts, as `places_of` has it, since any sheet serves such a table.
fn counts(table: &[u8]) -> (usize, usize)
    ensures { (result.0 ≡ identifiers_of table.now) × (result.1 ≡ places_of table.now) × (result.1 ≤ 544) }
{
    if !has_counts(table) {
        return (0, 0);
    }
    let identifiers = table::identifiers(table);
    (identifiers, identifiers + table::nodes(table))
}

// Writes the listing of a table at the start of `out`, and answers its length. A part of the right length is lent to Check as its
// sheet. No struct of the buffer and its length: the clause of `listing_of` speaks of the first `result` bytes of a lent buffer.
fn list(table: &[u8], sheet: &mut [u8], out: &mut [u8]) -> usize
    requires { (34816 ≤ length sheet.old) × (83241 ≤ length out.old) }
    ensures { (result ≤ length out.new) × (take result out.new ≡ listing_of table.now) }
{
    let (identifiers, places) = counts(table);
    let end = ROW * places;
    match checker::check(table, &mut sheet[..end]) {
        Err(r) => text::refused(out, r.number, r.place),
        Ok(()) => text::accepted(out, identifiers, places, &sheet[..end]),
    }
}

// No table has more than 8,416 bytes, so the length of a longer input is wrong however much of it is read. No Vec: room that is there from the
// start cannot run out.
fn main(rt: HostRuntime) -> io::Result<()> {
    // First: where it stands behind the read, it is cleared twice.
    let mut out = [0u8; 131072];
    let mut stdin = rt.stdin();
    let mut input = [0u8; 65536];
    let n = batch::next_bytes(&mut stdin, &mut input, 65536)?;
    let mut sheet = [0u8; 65536];
    let length = list(&input[..n], &mut sheet, &mut out);
    rt.stdout().write_all(&out[..length])
}
