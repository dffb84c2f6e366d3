// Making a field (document 02, order 3): its five bytes go straight to their place in a part of the buffer, as a space and a word of four
// bytes where they can. What is promised of the part is FieldMade, in line's specs/Made.antt.
#![tactic(auto)]

ghost use Rattle.std.specs.Prelude.{◌≡◌, ◌+◌, ◌≤◌, length};
ghost use Rattle.std.proofs.lemmas.List.Edits.{sets};
ghost use Rattle.line.specs.Made.{FieldMade};
ghost use Rattle.line.specs.declared.Entry.TheVariants.{Number, Dash, Ever};
ghost use Rattle.making.specs.Words.{word_text};

use spelling::spell;

// The word of three spaces and `-`, and that of `ever`, the first byte the lowest.
const DASH: u32 = 32 + 32 * 256 + 32 * 65536 + 45 * 16777216;

const EVER: u32 = 101 + 118 * 256 + 101 * 65536 + 114 * 16777216;

// The field of x in the five places from `at`. The bound keeps them within the part. A number above 99,999 is cut to its last five
// digits.
pub fn make_number(x: u32, part: &mut [u8], at: usize)
    requires { at + 5 ≤ length part.old }
    ensures { FieldMade part.old part.new at (Number x) }
{
    if x < 1000 {
        put_word(32 + spell(x as usize) * 256, part, at);
    } else {
        field::write(x, part, at);
    }
}

// The field of `-`, likewise; it and `ever` are a line each, and each promises its own text.
pub fn make_dash(part: &mut [u8], at: usize)
    requires { at + 5 ≤ length part.old }
    ensures { FieldMade part.old part.new at Dash }
{
    put_word(DASH, part, at)
}

// The field of `ever`, likewise.
pub fn make_ever(part: &mut [u8], at: usize)
    requires { at + 5 ≤ length part.old }
    ensures { FieldMade part.old part.new at Ever }
{
    put_word(EVER, part, at)
}

// A space and the four bytes of a word: to the machine a store of one byte and one of four.
fn put_word(word: u32, part: &mut [u8], at: usize)
    requires { at + 5 ≤ length part.old }
    ensures { part.new ≡ sets part.old at (word_text word) }
{
    part[at] = b' ';
    part[at + 1] = (word % 256) as u8;
    part[at + 2] = (word / 256 % 256) as u8;
    part[at + 3] = (word / 65536 % 256) as u8;
    part[at + 4] = (word / 16777216 % 256) as u8;
}
