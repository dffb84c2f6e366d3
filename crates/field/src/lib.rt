// The five-byte field of charts and plates (document 01, "The chart"): a number from 0 to 99,999, right-justified after
// spaces, with no leading zero save "0" itself; or blank, five spaces. Reading and writing are each other's inverse (specs/Laws.antt).
#![tactic(auto)]

ghost use Rattle.std.specs.Prelude.{◌≡◌, cond, [], ◌∷◌, ◌+◌, ◌-◌, ◌≤◌, ◌<◌, length, eqb};
ghost use Rattle.field.specs.Text.{Digits, scan, ended, field_at, decimal_at, with_number, place_byte};
ghost use Rattle.field.specs.Reader.{is_digit};

// What five bytes read as. Whether a blank is taken is its sheet's matter.
#[derive(Clone, Copy)]
pub enum Field {
    Number(u32),
    Blank,
    Bad,
}

// The field at `at`. The bound keeps its five bytes within the text. Spaces before the digits count as zeros.
pub fn read(text: &[u8], at: usize) -> Field
    requires { at + 5 ≤ length text.now }
    ensures { result ≡ field_at text.now at }
{
    let a = text[at];
    let b = text[at + 1];
    let c = text[at + 2];
    let d = text[at + 3];
    let e = text[at + 4];
    if a != b' ' {
        return leading(a, digits(a, b, c, d, e));
    }
    if b != b' ' {
        return leading(b, digits(b'0', b, c, d, e));
    }
    if c != b' ' {
        return leading(c, digits(b'0', b'0', c, d, e));
    }
    if d != b' ' {
        return leading(d, digits(b'0', b'0', b'0', d, e));
    }
    if e != b' ' {
        return digits(b'0', b'0', b'0', b'0', e);
    }
    Field::Blank
}

// The number of a field that was found to be one. No byte is tested again: a digit's last four bits are its worth, and a space's
// are 0: so a blank is 0 too. The bound keeps the five bytes within the text.
pub fn decimal(text: &[u8], at: usize) -> u32
    requires { at + 5 ≤ length text.now }
    ensures { result ≡ decimal_at text.now at }
{
    let a = (text[at] % 16) as u32;
    let b = (text[at + 1] % 16) as u32;
    let c = (text[at + 2] % 16) as u32;
    let d = (text[at + 3] % 16) as u32;
    let e = (text[at + 4] % 16) as u32;
    (((a * 10 + b) * 10 + c) * 10 + d) * 10 + e
}

// The field of x into its five places from `at`. The bound keeps them within the text. A number above 99,999 is cut to its
// last five digits.
pub fn write(x: u32, text: &mut [u8], at: usize)
    requires { at + 5 ≤ length text.old }
    ensures { text.new ≡ with_number text.old at x }
{
    text[at] = place(x, 10000);
    text[at + 1] = place(x, 1000);
    text[at + 2] = place(x, 100);
    text[at + 3] = place(x, 10);
    text[at + 4] = (48 + x % 10) as u8;
}

// What a field of two digits or more reads as, from its first digit and its number: no leading zero.
fn leading(first: u8, f: Field) -> Field
    ensures { result ≡ cond (eqb first 48) Field.Bad f }
{
    if first == b'0' {
        return Field::Bad;
    }
    f
}

// The number that five digits spell.
fn digits(a: u8, b: u8, c: u8, d: u8, e: u8) -> Field
    ensures { result ≡ ended (scan (Digits 0) (a ∷ b ∷ c ∷ d ∷ e ∷ [])) }
{
    if !digit(a) {
        return Field::Bad;
    }
    if !digit(b) {
        return Field::Bad;
    }
    if !digit(c) {
        return Field::Bad;
    }
    if !digit(d) {
        return Field::Bad;
    }
    if !digit(e) {
        return Field::Bad;
    }
    let ab = value(a) * 10 + value(b);
    let abc = ab * 10 + value(c);
    let abcd = abc * 10 + value(d);
    Field::Number(abcd * 10 + value(e))
}

// Whether a byte is a digit.
fn digit(b: u8) -> bool
    ensures { result ≡ is_digit b }
{
    b.is_ascii_digit()
}

// What a digit is worth.
fn value(b: u8) -> u32
    requires { 48 ≤ b }
    ensures { result ≡ b - 48 }
{
    (b - b'0') as u32
}

// The byte in the place of `unit`, 10 to 10,000: a space before the number's first digit. Callers name the unit; the bound keeps it from
// being 0.
fn place(x: u32, unit: u32) -> u8
    requires { 0 < unit }
    ensures { result ≡ place_byte x unit }
{
    if x < unit {
        b' '
    } else {
        (48 + x / unit % 10) as u8
    }
}
