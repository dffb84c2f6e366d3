// The library's answers in numbers.
use refusal::{Numbers, Refusal};

// Accepted, or the refusal.
pub fn numbers_of(answer: Result<(), Refusal>) -> Numbers {
    match answer {
        Ok(()) => Numbers::none(),
        Err(r) => Numbers::from(r),
    }
}

// The length, or a number that no text has.
pub fn length_of(answer: Result<usize, Refusal>) -> usize {
    match answer {
        Ok(k) => k,
        Err(_) => 99999,
    }
}

// Whether a refusal has this number and line, and no position and condition.
pub fn is_refusal(refusal: Refusal, number: usize, line: usize) -> bool {
    let r = Numbers::from(refusal);
    let placed = (r.line == line) & (r.position == 0) & (r.condition == 0);
    placed & (r.number as usize == number)
}
