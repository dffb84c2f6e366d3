// The cases of a test program's input. A case has the lengths of its name and of its three texts in four fields, a line feed, the
// name, the texts and a line feed.
#![tactic(auto)]

ghost use Rattle.std.specs.Prelude.{◌≤◌, ◌≡◌};
ghost use Rattle.cases.specs.Cases.{after, case_at, length_in, no_case};

use field::{Field, read};

// Where a case's name and its texts begin, and where they end.
#[derive(Clone, Copy)]
pub struct Case {
    pub name: usize,
    pub first: usize,
    pub second: usize,
    pub third: usize,
    pub end: usize,
}

// The case at `at`, cut at the input's end: where nothing is left, all is at the end.
pub fn case_at(input: &[u8], at: usize) -> Case
    ensures { result ≡ case_at input.now at }
{
    let size = input.len();
    if size < 21 {
        return ended(size);
    }
    if size - 21 < at {
        return ended(size);
    }
    let name = at + 21;
    let first = after(size, name, length(read(input, at)));
    let second = after(size, first, length(read(input, at + 5)));
    let third = after(size, second, length(read(input, at + 10)));
    let end = after(size, third, length(read(input, at + 15)));
    Case {
        name,
        first,
        second,
        third,
        end,
    }
}

fn ended(size: usize) -> Case
    ensures { result ≡ no_case size }
{
    Case {
        name: size,
        first: size,
        second: size,
        third: size,
        end: size,
    }
}

// So many bytes further on, but not past the input's end.
fn after(size: usize, from: usize, count: usize) -> usize
    requires { from ≤ size }
    ensures { result ≡ after size from count }
{
    from + count.min(size - from)
}

// A field's length, 0 where it has no number.
fn length(f: Field) -> usize
    ensures { result ≡ length_in f }
{
    match f {
        Field::Number(x) => x as usize,
        Field::Blank => 0,
        Field::Bad => 0,
    }
}
