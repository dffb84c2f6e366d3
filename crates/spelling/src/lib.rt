// Words of bytes. Whoever knows what a text must hold compares four neighbouring bytes at once with the word expected there, and whoever
// writes stores four at once; a number below 1,000 fills the last three bytes of a field. What a word tells of the bytes is in
// specs/WordLaws.antt.
#![tactic(auto)]

ghost use Rattle.std.specs.Prelude.{◌≡◌, ◌+◌, ◌≤◌, ◌<◌, length};
ghost use Rattle.rows.specs.Rows.{Filled};
ghost use Rattle.spelling.specs.Words.{WordIs, spelt, zeros_of};

// One, two and three zeros in the last places, with spaces before them, as words of three bytes.
const ONE_ZERO: u32 = 32 + 32 * 256 + 48 * 65536;

const TWO_ZEROS: u32 = 32 + 48 * 256 + 48 * 65536;

const THREE_ZEROS: u32 = 48 + 48 * 256 + 48 * 65536;

// What each ten in a number takes from its last byte, and gives to the one before.
const TEN: u32 = 10 * 65536 - 256;

// What each hundred takes from the byte of tens, and gives to the one before.
const HUNDRED: u32 = 10 * 256 - 1;

// The four bytes from `at` as a word. The bound keeps them within the text.
pub fn word(text: &[u8], at: usize) -> u32
    requires { at + 4 ≤ length text.now }
    ensures { WordIs text.now at result }
{
    u32::from_le_bytes([text[at], text[at + 1], text[at + 2], text[at + 3]])
}

// The last three of the five bytes of x as a word, without a jump. The bound is what three bytes can spell.
pub fn spell(x: usize) -> u32
    requires { x < 1000 }
    ensures { result ≡ spelt x }
{
    let y = x as u32;
    y * 65536 - y / 10 * TEN - y / 100 * HUNDRED + zeros(y)
}

// The words of the numbers below n. The bounds keep them within the row, and within what three bytes can spell.
pub fn spell_all(n: usize, words: &mut [u32])
    requires { (n ≤ length words.old) × (n ≤ 1000) }
    ensures { Filled words.old words.new n spelt }
{
    for v in 0..n {
        words[v] = spell(v);
    }
}

// A zero in the place of each digit of x, and spaces before them: each digit is added to one of these.
fn zeros(x: u32) -> u32
    ensures { result ≡ zeros_of x }
{
    if x < 10 {
        return ONE_ZERO;
    }
    if x < 100 {
        return TWO_ZEROS;
    }
    THREE_ZEROS
}
