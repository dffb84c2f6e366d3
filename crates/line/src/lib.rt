// The line of every sheet: a letter, some number of fields, a line feed. What a field of it reads as, over any number of fields; what
// stands in the fields of a chart and of a plate is said there (specs/Text.antt, specs/LineLaws.antt). What making a field and a line
// promises is in specs/Made.antt; the crate `making` makes fields.
#![tactic(auto)]

ghost use Rattle.std.specs.Prelude.{◌≡◌, [], ◌∷◌, ◌+◌, ◌≤◌, length};
ghost use Rattle.field.specs.Text.{five};
ghost use Rattle.line.specs.Text.{entry_at, same_text, line_size, framed};

use field::Field;

// What a field reads as.
#[derive(Clone, Copy)]
pub enum Entry {
    Number(u32),
    Dash,
    Ever,
    Bad,
}

// Whether the line of so many fields from `at` begins with the letter and ends with a line feed. The bounds keep it within the text,
// and its size within a number.
pub fn framed(text: &[u8], at: usize, fields: usize, letter: u8) -> bool
    requires { at + line_size fields ≤ length text.now }
    ensures { result ≡ framed text.now at fields letter }
{
    if text[at] != letter {
        return false;
    }
    text[at + (5 * fields + 1)] == 10
}

// The entry at `at`. The bound keeps its five bytes within the text.
pub fn read_entry(text: &[u8], at: usize) -> Entry
    requires { at + 5 ≤ length text.now }
    ensures { result ≡ entry_at text.now at }
{
    match field::read(text, at) {
        Field::Number(x) => Entry::Number(x),
        Field::Blank => Entry::Bad,
        Field::Bad => {
            if spells(text, at, b' ', b' ', b' ', b'-') {
                return Entry::Dash;
            }
            if spells(text, at, b'e', b'v', b'e', b'r') {
                return Entry::Ever;
            }
            Entry::Bad
        }
    }
}

// Whether the five bytes from `at` are a space and these.
fn spells(text: &[u8], at: usize, b: u8, c: u8, d: u8, e: u8) -> bool
    requires { at + 5 ≤ length text.now }
    ensures { result ≡ same_text (five text.now at) (32 ∷ b ∷ c ∷ d ∷ e ∷ []) }
{
    if text[at] != b' ' {
        return false;
    }
    if text[at + 1] != b {
        return false;
    }
    if text[at + 2] != c {
        return false;
    }
    if text[at + 3] != d {
        return false;
    }
    if text[at + 4] != e {
        return false;
    }
    true
}
