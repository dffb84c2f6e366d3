// Listing: the sheet of good moves by its definition, held against the library's; and that a positional controller is optimal, its worths
// the values, exactly when all its choices stand on the library's sheet.
use crate::compare::{Case, LINES, OPTIMAL, OTHERS};
use listing::list_good_moves;
use reference::altered::{choose, ways};
use reference::definition::{count, weigh_choices};
use reference::generate::below;
use reference::sheet::{
    CHOICE, CONTROLLER, Chart, LEFT, LETTER, NONE, RIGHT, Table, VALUE, WORTH, cell,
    first_difference, get, owner, positions, put,
};
use reference::tally::{Tally, add, expect};
use reference::text::{Page, lines_of, put_line};
use refusal::{Numbers, Refusal};
use std::io;

// The library's sheet of a chart: its page, and the count of its lines.
#[derive(Clone, Copy)]
struct Sheet<'a> {
    page: &'a Page,
    lines: usize,
}

// All comparisons of one chart.
pub fn compare_sheets(rt: &impl Print, case: Case, tally: &mut Tally) -> io::Result<()> {
    let mut page = [b'#'; 65536];
    let mut lent = [b'#'; 65536];
    let lines = write_sheet(&mut page, case.chart, case.table);
    add(tally, LINES, lines);
    compare_rooms(rt, case, &page, lines, tally)?;
    compare_room(rt, case, &mut lent, 65536, &page, lines, tally)?;
    let sheet = Sheet { page: &lent, lines };
    if 3 < positions(case.chart) {
        hold_drawn(rt, case, sheet, tally)
    } else {
        hold_every(rt, case, sheet, tally)
    }
}

// With as many bytes as the lines take, and with one less.
fn compare_rooms(
    rt: &impl Print,
    case: Case,
    page: &Page,
    lines: usize,
    tally: &mut Tally,
) -> io::Result<()> {
    let blank = [b'#'; 65536];
    let mut full = [b'#'; 65536];
    let mut short = [b'#'; 65536];
    let size = lines % 8192 * 12;
    compare_room(rt, case, &mut full, size, page, lines, tally)?;
    if 0 < size {
        compare_room(rt, case, &mut short, size - 1, &blank, lines, tally)?;
    }
    Ok(())
}

// Writes the sheet by its definition, in the chart's order, and answers the count of lines.
fn write_sheet(page: &mut Page, chart: &Chart, table: &Table) -> usize {
    let lines = lines_of(chart);
    let mut count = 0;
    for i in 0..lines {
        if is_good(chart, table, i) {
            put_line(page, count, 71, chart, i);
            count += 1;
        }
    }
    count
}

// A chart's line is a meant move of the controller's.
fn is_choice(chart: &Chart, i: usize) -> bool {
    cell(chart, LETTER, i) == 77 && owner(chart, cell(chart, LEFT, i)) == CONTROLLER
}

// And its target has at least the position's value.
fn is_good(chart: &Chart, table: &Table, i: usize) -> bool {
    let from = get(table, VALUE, cell(chart, LEFT, i));
    is_choice(chart, i) && from <= get(table, VALUE, cell(chart, RIGHT, i))
}

// The answer with so much of the page lent, and every byte of it.
fn compare_room(
    rt: &impl Print,
    case: Case,
    lent: &mut Page,
    room: usize,
    page: &Page,
    lines: usize,
    tally: &mut Tally,
) -> io::Result<()> {
    let answer = list_good_moves(case.text, &mut lent[..room.min(65536)]);
    let same = *page == *lent;
    expect(
        rt,
        same & is_answer(answer, lines, room),
        b"listing",
        case.text,
        tally,
    )
}

// So many lines, or 10 where there is no room for them.
fn is_answer(answer: Result<usize, Refusal>, lines: usize, room: usize) -> bool {
    let short = room < lines % 8192 * 12;
    match answer {
        Ok(count) => (count == lines) & !short,
        Err(refusal) => {
            let r = Numbers::from(refusal);
            (r.number == 10) & (r.line == 0) & short
        }
    }
}

// Each positional controller of a chart of up to three positions.
fn hold_every(rt: &impl Print, case: Case, sheet: Sheet, tally: &mut Tally) -> io::Result<()> {
    for code in 0..27 {
        hold_numbered(rt, case, sheet, [code % 3, code / 3 % 3, code / 9], tally)?;
    }
    Ok(())
}

// The controller of the choice of each number at each position, where there are so many choices.
fn hold_numbered(
    rt: &impl Print,
    case: Case,
    sheet: Sheet,
    choices: [usize; 3],
    tally: &mut Tally,
) -> io::Result<()> {
    let mut table = *case.table;
    let mut row = [0u16; 512];
    for (v, choice) in choices.iter().enumerate() {
        if ways(case.chart, v) <= *choice {
            return Ok(());
        }
        choose(case.chart, &mut table, &mut row, v, *choice);
    }
    hold(rt, case, &mut table, sheet, tally)
}

// Of a larger chart the plate's own choices, some changed to other listed moves; then the same with a move that is not listed.
fn hold_drawn(rt: &impl Print, case: Case, sheet: Sheet, tally: &mut Tally) -> io::Result<()> {
    let chart = case.chart;
    let mut table = *case.table;
    let mut seed = sheet.lines;
    choose_listed(&mut table, sheet, &mut seed);
    hold(rt, case, &mut table, sheet, tally)?;
    if let Some(i) = unlisted(chart, case.table, below(&mut seed, lines_of(chart))) {
        let from = cell(chart, LEFT, i);
        put(&mut table, CHOICE, from, cell(chart, RIGHT, i));
        hold(rt, case, &mut table, sheet, tally)?;
    }
    Ok(())
}

// Chooses a listed move every other time.
fn choose_listed(table: &mut Table, sheet: Sheet, seed: &mut usize) {
    for k in 0..sheet.lines {
        if below(seed, 2) == 0 {
            let to = number(sheet.page, k, 6);
            put(table, CHOICE, number(sheet.page, k, 1), to);
        }
    }
}

// The first line from one on, in a circle, that is a meant move of the controller's and not good.
fn unlisted(chart: &Chart, table: &Table, from: usize) -> Option<usize> {
    let lines = lines_of(chart);
    (0..lines)
        .map(|k| (from % 16384 + k % 16384) % lines)
        .find(|i| is_choice(chart, *i) && !is_good(chart, table, *i))
}

// The controller of the table's choices: its worths are the values exactly when all its choices are listed.
fn hold(
    rt: &impl Print,
    case: Case,
    table: &mut Table,
    sheet: Sheet,
    tally: &mut Tally,
) -> io::Result<()> {
    let n = positions(case.chart);
    weigh_choices(case.chart, table);
    let optimal = first_difference(table, VALUE, WORTH, n) == n;
    let choices = chosen(table, sheet) % 8192 + count(table, CHOICE, n, NONE) % 8192;
    add(tally, if optimal { OPTIMAL } else { OTHERS }, 1);
    expect(
        rt,
        optimal == (choices == n),
        b"listed choices",
        case.text,
        tally,
    )
}

// How many of a sheet's lines are choices. A line stands on it once.
fn chosen(table: &Table, sheet: Sheet) -> usize {
    (0..sheet.lines)
        .filter(|k| get(table, CHOICE, number(sheet.page, *k, 1)) == number(sheet.page, *k, 6))
        .count()
}

// The number of a line's field, of three digits at most. A space counts as a leading 0.
fn number(sheet: &Page, k: usize, column: usize) -> usize {
    let at = k % 5000 * 12 + column % 8;
    let tens = digit(sheet[at + 2]) % 10 * 10 + digit(sheet[at + 3]) % 10;
    tens * 10 + digit(sheet[at + 4]) % 10
}

fn digit(b: u8) -> usize {
    usize::from(b) % 16
}
