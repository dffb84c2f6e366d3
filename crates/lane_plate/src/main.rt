// The collection's program: reads a chart from standard input and writes its plate, or on refusal the line `R`, number, line in
// the chart's columns.
#![tactic(auto)]

use input::read_full;
use rows::Chart;
use std::io;

fn main(rt: HostRuntime) -> io::Result<()> {
    // One byte more than the longest chart, so that a longer input is seen to be longer.
    let mut text = [0u8; Chart::BYTES + 1];
    let got = read_full(&mut rt.stdin(), &mut text)?;
    let mut out = [0u8; 11286];
    let size = response::respond(&text[..got], &mut out);
    rt.write_all(&out[..size])
}
