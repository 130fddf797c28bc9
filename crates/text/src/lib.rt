// The lines of a listing, written into a lent buffer.
#![tactic(auto)]

ghost use Rattle.std.specs.Prelude.{◌++◌, ◌≡◌, ◌==◌, ◌+◌, ◌*◌, ◌≤◌, length, position};
ghost use Rattle.text.specs.Text.{decimal_of, hex_of, unfilled, row_text, letter_of, index_of, line_of, lines_of, refusal_line, accepted_line, Appends};
ghost use Rattle.text.specs.Grown.{HasRoom, TextGrown};

// The bytes of a place's row in a sheet, named here too: this crate depends on none that reads tables or sheets.
const ROW: usize = 64;

// A text that grows in a lent buffer: the next byte goes to `at`. The public functions take and answer a place instead,
// since their clauses `Appends` speak of it.
#[derive(Drop)]
struct Text<'a> {
    out: &'a mut [u8],
    at: usize,
}

impl<'a> Text<'a> {
    fn bytes(&mut self, bytes: &[u8])
        requires { HasRoom self.old bytes.now }
        ensures { TextGrown self.old bytes.now self.new }
    {
        let end = self.at + bytes.len();
        self.out[self.at..end].copy_from_slice(bytes);
        self.at = end;
    }

    fn decimal(&mut self, n: usize)
        requires { HasRoom self.old (decimal_of n) }
        ensures { TextGrown self.old (decimal_of n) self.new }
    {
        let mut digits = itoa::Buffer::new();
        self.bytes(digits.format(n).as_bytes());
    }

    fn hex(&mut self, codes: &[u8])
        requires { HasRoom self.old (hex_of codes.now) }
        ensures { TextGrown self.old (hex_of codes.now) self.new }
    {
        let end = self.at + 2 * codes.len();
        hex_digits(codes, &mut self.out[self.at..end]);
        self.at = end;
    }

    // The codes of a row, or p where there are none.
    fn row(&mut self, row: &[u8])
        requires { HasRoom self.old (row_text row.now) }
        ensures { TextGrown self.old (row_text row.now) self.new }
    {
        let codes = unfilled(row);
        if codes.is_empty() {
            self.bytes(b"p");
        } else {
            self.hex(codes);
        }
    }

    // The line of place p, where the first places are the identifiers.
    #[tactic(auto, using(crate::proofs::TextLaws::line_extent))]
    fn line(&mut self, identifiers: usize, p: usize, row: &[u8])
        requires { HasRoom self.old (line_of identifiers p row.now) }
        ensures { TextGrown self.old (line_of identifiers p row.now) self.new }
    {
        let (letter, number) = name(identifiers, p);
        self.bytes(&[letter, b' ']);
        self.decimal(number);
        self.bytes(b" ");
        self.row(row);
        self.bytes(b"\n");
    }

    // The lines of all places.
    fn lines(&mut self, identifiers: usize, count: usize, sheet: &[u8])
        requires { (64 * count ≤ length sheet.now) × HasRoom self.old (lines_of identifiers count sheet.now) }
        ensures { TextGrown self.old (lines_of identifiers count sheet.now) self.new }
    {
        for p in 0..count {
            self.line(identifiers, p, &sheet[ROW * p..ROW * p + ROW]);
        }
    }

    // The line of a refusal.
    #[tactic(auto, using(crate::proofs::TextLaws::refusal_extent))]
    fn refusal(&mut self, number: usize, place: usize)
        requires { HasRoom self.old (refusal_line number place) }
        ensures { TextGrown self.old (refusal_line number place) self.new }
    {
        self.bytes(b"refused ");
        self.decimal(number);
        self.bytes(b" ");
        self.decimal(place);
        self.bytes(b"\n");
    }
}

// Codes in hexadecimal, filling `out`: a function of its own, so that what is wrong in the digits alone is refused here.
#[tactic(auto, using(crate::proofs::TextLaws::hex_text, crate::proofs::TextLaws::hex_lowered))]
fn hex_digits(codes: &[u8], out: &mut [u8])
    requires { length out.old ≡ 2 * length codes.now }
    ensures { out.new ≡ hex_of codes.now }
{
    // There are two digits for each code, so this does not fail.
    hex::encode_to_slice(codes, out).unwrap();
}

// Where a row's fill begins, if it has one: no code is 0.
fn fill(row: &[u8]) -> Option<usize>
    ensures { result ≡ position (λ x. x == 0) row.now }
{
    row.iter().position(|code| *code == 0)
}

// The codes of a row without its fill.
fn unfilled(row: &[u8]) -> &[u8]
    ensures { result.now ≡ unfilled row.now }
{
    &row[..fill(row).unwrap_or(row.len())]
}

// i or n, and the number among identifiers or nodes.
fn name(identifiers: usize, p: usize) -> (u8, usize)
    ensures { (result.0 ≡ letter_of identifiers p) × (result.1 ≡ index_of identifiers p) }
{
    if p < identifiers {
        (b'i', p)
    } else {
        (b'n', p - identifiers)
    }
}

// The line of place p, where the first places are the identifiers, written from `at` on; answers the place after it.
pub fn line(out: &mut [u8], at: usize, identifiers: usize, p: usize, row: &[u8]) -> usize
    requires { at + length (line_of identifiers p row.now) ≤ length out.old }
    ensures { Appends out.old at (line_of identifiers p row.now) result out.new }
{
    let mut text = Text { out, at };
    text.line(identifiers, p, row);
    text.at
}

// The whole text of an accepted table; answers its length.
pub fn accepted(out: &mut [u8], identifiers: usize, count: usize, sheet: &[u8]) -> usize
    requires { (64 * count ≤ length sheet.now) × (length (lines_of identifiers count sheet.now ++ accepted_line) ≤ length out.old) }
    ensures { Appends out.old 0 (lines_of identifiers count sheet.now ++ accepted_line) result out.new }
{
    let mut text = Text { out, at: 0 };
    text.lines(identifiers, count, sheet);
    text.bytes(b"accepted\n");
    text.at
}

// The line of a refused table; answers its length.
pub fn refused(out: &mut [u8], number: usize, place: usize) -> usize
    requires { length (refusal_line number place) ≤ length out.old }
    ensures { Appends out.old 0 (refusal_line number place) result out.new }
{
    let mut text = Text { out, at: 0 };
    text.refusal(number, place);
    text.at
}
