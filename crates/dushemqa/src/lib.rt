// The C interface: each of the library's jobs as a function on pointers and lengths, thin over the job. `c/dushemqa.h` declares them.
// What is lent and the run are the caller's own; nothing is kept.
#![tactic(auto)]

ghost use Rattle.std.specs.Prelude.{◌≡◌};
ghost use Rattle.checking.specs.Checking.{checked};
ghost use Rattle.indexing.specs.Indexing.{indexed};
ghost use Rattle.run.specs.Running.{reported, started};
ghost use Rattle.answers.specs.Numbers.{count_numbers, refusal_numbers, reported_numbers, started_numbers};
ghost use Rattle.dushemqa.specs.Exports.{ComparedAs, GeneratedAs, HousedAs, ListedAs, ReadAs, RuinedAs, ValuedAs, WeighedAs, WrittenAs};

use answers::{
    ComparedNumbers, CountNumbers, HouseNumbers, ReadingNumbers, Step, ValuedNumbers,
    compared_numbers, count_numbers, housed_numbers, reading_numbers, refusal_numbers,
    reported_numbers, started_numbers, valued_numbers,
};
use checking::check;
use comparing::compare;
use generating::write_small_chart;
use house::report_house;
use indexing::index_small_chart;
use listing::list_good_moves;
use reading::read_plate;
use refusal::Numbers;
use ruin::list_way_to_ruin;
use run::Run;
use valuing::{value_chart, value_plain};
use weighing::weigh_chart;
use writing::write_plate;

// Valuing.
#[unsafe(no_mangle)]
pub extern "C" fn dushemqa_value(
    text: &[u8],
    values: &mut [u16],
    choices: &mut [u16],
    steps: &mut [u16],
) -> ValuedNumbers
    ensures { ValuedAs text.now values.old values.new choices.old choices.new steps.old steps.new result }
{
    valued_numbers(value_chart(text, values, choices, steps))
}

// Valuing by the plain solver.
#[unsafe(no_mangle)]
pub extern "C" fn dushemqa_value_plain(
    text: &[u8],
    values: &mut [u16],
    choices: &mut [u16],
    steps: &mut [u16],
) -> ValuedNumbers
    ensures { ValuedAs text.now values.old values.new choices.old choices.new steps.old steps.new result }
{
    valued_numbers(value_plain(text, values, choices, steps))
}

// Writing.
#[unsafe(no_mangle)]
pub extern "C" fn dushemqa_write(text: &[u8], out: &mut [u8]) -> CountNumbers
    ensures { WrittenAs text.now out.old out.new result }
{
    count_numbers(write_plate(text, out))
}

// Reading.
#[unsafe(no_mangle)]
pub extern "C" fn dushemqa_read(
    text: &[u8],
    plate: &[u8],
    values: &mut [u16],
    choices: &mut [u16],
    steps: &mut [u16],
) -> ReadingNumbers
    ensures { ReadAs text.now plate.now values.old values.new choices.old choices.new steps.old steps.new result }
{
    reading_numbers(read_plate(text, plate, values, choices, steps))
}

// Checking.
#[unsafe(no_mangle)]
pub extern "C" fn dushemqa_check(text: &[u8], plate: &[u8]) -> Numbers
    ensures { result ≡ refusal_numbers (checked text.now plate.now) }
{
    refusal_numbers(check(text, plate))
}

// Weighing.
#[unsafe(no_mangle)]
pub extern "C" fn dushemqa_weigh(text: &[u8], choices: &[u16], worths: &mut [u16]) -> Numbers
    ensures { WeighedAs text.now choices.now worths.old worths.new result }
{
    refusal_numbers(weigh_chart(text, choices, worths))
}

// Comparing.
#[unsafe(no_mangle)]
pub extern "C" fn dushemqa_compare(text: &[u8], plate: &[u8], choices: &[u16]) -> ComparedNumbers
    ensures { ComparedAs text.now plate.now choices.now result }
{
    compared_numbers(compare(text, plate, choices))
}

// Listing.
#[unsafe(no_mangle)]
pub extern "C" fn dushemqa_good_moves(text: &[u8], sheet: &mut [u8]) -> CountNumbers
    ensures { ListedAs text.now sheet.old sheet.new result }
{
    count_numbers(list_good_moves(text, sheet))
}

// The way to ruin.
#[unsafe(no_mangle)]
pub extern "C" fn dushemqa_ruin(
    text: &[u8],
    choices: &[u16],
    position: usize,
    sheet: &mut [u8],
) -> CountNumbers
    ensures { RuinedAs text.now choices.now position sheet.old sheet.new result }
{
    count_numbers(list_way_to_ruin(text, choices, position, sheet))
}

// Generating.
#[unsafe(no_mangle)]
pub extern "C" fn dushemqa_small_chart(
    positions: usize,
    index: usize,
    chart: &mut [u8],
) -> CountNumbers
    ensures { GeneratedAs positions index chart.old chart.new result }
{
    count_numbers(write_small_chart(positions, index, chart))
}

// Indexing.
#[unsafe(no_mangle)]
pub extern "C" fn dushemqa_small_index(text: &[u8]) -> CountNumbers
    ensures { result ≡ count_numbers (indexed text.now) }
{
    count_numbers(index_small_chart(text))
}

// Start.
#[unsafe(no_mangle)]
pub extern "C" fn dushemqa_start(text: &[u8], plate: &[u8], position: usize) -> Step
    ensures { result ≡ started_numbers (started text.now plate.now position) }
{
    started_numbers(Run::start(text, plate, position))
}

// Report.
#[unsafe(no_mangle)]
pub extern "C" fn dushemqa_report(run: Run, text: &[u8], plate: &[u8], to: usize) -> Step
    ensures { result ≡ reported_numbers (reported run text.now plate.now to) }
{
    reported_numbers(run.report(text, plate, to))
}

// A house's report.
#[unsafe(no_mangle)]
pub extern "C" fn dushemqa_report_house(
    runs: &mut [Run],
    reports: &[u16],
    text: &[u8],
    plate: &[u8],
) -> HouseNumbers
    ensures { HousedAs runs.old reports.now text.now plate.now runs.new result }
{
    housed_numbers(report_house(runs, reports, text, plate))
}
