// Counts of what was compared, and the lines in which they are written.
use std::io;

// What is counted, in the order in which it is written; the eighteenth are the mismatches.
pub type Tally = [usize; 19];

const MISMATCHES: usize = 17;

pub fn add(tally: &mut Tally, k: usize, x: usize) {
    tally[k % 19] = tally[k % 19] % 1000000000 + x % 1000000000;
}

// Counts a comparison that failed, and shows its chart; only the first few are shown.
pub fn expect(
    rt: &impl Print,
    ok: bool,
    name: &[u8],
    text: &[u8],
    tally: &mut Tally,
) -> io::Result<()> {
    if ok {
        return Ok(());
    }
    add(tally, MISMATCHES, 1);
    if tally[MISMATCHES] < 9 {
        rt.write_all(name)?;
        rt.write_all(b": not by the definitions\n")?;
        rt.write_all(text)?;
    }
    Ok(())
}

// A line: the first counts, the name, and the mismatches where there are some.
pub fn report_line(rt: &impl Print, tally: &Tally, counts: usize, name: &[u8]) -> io::Result<()> {
    report(rt, tally, counts)?;
    rt.write_all(name)?;
    report_count(rt, b", mismatches: ", tally[MISMATCHES])?;
    rt.write_all(b"\n")
}

// The first counts.
pub fn report(rt: &impl Print, tally: &Tally, counts: usize) -> io::Result<()> {
    for count in tally.iter().take(counts) {
        rt.print(*count)?;
        rt.write_all(b" ")?;
    }
    Ok(())
}

// A count with its name, where it is not 0.
pub fn report_count(rt: &impl Print, name: &[u8], count: usize) -> io::Result<()> {
    if 0 < count {
        rt.write_all(name)?;
        rt.print(count)?;
    }
    Ok(())
}
