// What the program writes for a chart: its plate, or the line of its refusal.
#![tactic(auto)]

ghost use Rattle.std.specs.Prelude.{◌≤◌, length};
ghost use Rattle.response.specs.Response.{Responded};

use refusal::Numbers;
use rows::Chart;
use sheet_lines::write_line;
use writing::write_plate;

// The program's answer into a buffer with room for every plate: the plate, or the refusal's line. Answers its length.
pub fn respond(text: &[u8], out: &mut [u8]) -> usize
    requires { 11286 ≤ length out.old }
    ensures { Responded text.now out.old out.new result }
{
    match write_plate(text, out) {
        Ok(k) => k,
        Err(r) => {
            let numbers = Numbers::from(r);
            write_line(b'R', numbers.number, (numbers.line % 100000) as u32, out);
            Chart::LINE
        }
    }
}
