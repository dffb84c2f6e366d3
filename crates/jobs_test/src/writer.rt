// What the test writes: a letter and numbers in columns of five or six bytes, and a case's name; and the numbers that it reads.
ghost use Rattle.std.specs.Prelude.{◌≤◌};

use field::Field;
use refusal::{Numbers, Refusal};
use std::io;

// The number of the field at `at`; `otherwise` where the text ends before, or no number stands there.
pub fn number(text: &[u8], at: usize, otherwise: usize) -> usize
    requires { at ≤ 325 }
{
    if text.len() < at + 5 {
        return otherwise;
    }
    match field::read(text, at) {
        Field::Number(x) => x as usize,
        Field::Blank | Field::Bad => otherwise,
    }
}

pub fn name(rt: &impl Print, name: &[u8]) -> io::Result<()> {
    rt.write_all(name)?;
    rt.write_all(b"\n")
}

// A number in five bytes.
pub fn field(rt: &impl Print, x: usize) -> io::Result<()> {
    let mut out = [b' '; 5];
    field::write((x % 100000) as u32, &mut out, 0);
    rt.write_all(&out)
}

// A number in six.
pub fn column(rt: &impl Print, x: usize) -> io::Result<()> {
    rt.write_all(b" ")?;
    field(rt, x)
}

pub fn four(
    rt: &impl Print,
    letter: &[u8],
    a: usize,
    b: usize,
    c: usize,
    d: usize,
) -> io::Result<()> {
    rt.write_all(letter)?;
    field(rt, a)?;
    field(rt, b)?;
    field(rt, c)?;
    field(rt, d)
}

// A refusal with its number, line, position and condition.
pub fn refused(rt: &impl Print, refusal: Refusal) -> io::Result<()> {
    let r = Numbers::from(refusal);
    four(
        rt,
        b"R",
        r.number as usize,
        r.line,
        r.position,
        r.condition as usize,
    )
}
