// Valuing, the filed way and the plain one: each one's answer, and every number of the three rows, held against the definitions. The rows lent
// are longer than the chart wants or as long; one of them may be short, and the text may be damaged.
use crate::compare::Rows;
use reference::answers::is_refusal;
use reference::definition::solve;
use reference::generate::below;
use reference::sheet::{Chart, HEADER, Table, get, positions, wide};
use reference::tally::{Tally, add, expect};
use reference::text::{Damaged, Page, lines_of, part, write_damaged};
use refusal::Refusal;
use std::io;
use valuing::{value_chart, value_plain};

// What is counted, in the order in which it is written: questions that both ways answer with rounds, the positions and the rounds of these;
// questions refused for the chart, and with 10 for a row.
pub const COUNTED: usize = 5;

const TAKEN: usize = 0;

const POSITIONS: usize = 1;

const ROUNDS: usize = 2;

const MISDRAWN: usize = 3;

const SHORT: usize = 4;

// What is asked: the text, and the lengths of the three rows.
#[derive(Clone, Copy)]
struct Question {
    text: Damaged,
    values: usize,
    choices: usize,
    steps: usize,
}

// Four questions about a chart.
pub fn compare_both(
    rt: &impl Print,
    chart: &Chart,
    seed: &mut usize,
    tally: &mut Tally,
) -> io::Result<()> {
    let mut table = [0usize; 4096];
    solve(chart, &mut table);
    for k in 0..4 {
        compare_question(rt, chart, &table, k, seed, tally)?;
    }
    Ok(())
}

fn compare_question(
    rt: &impl Print,
    chart: &Chart,
    table: &Table,
    k: usize,
    seed: &mut usize,
    tally: &mut Tally,
) -> io::Result<()> {
    let n = positions(chart);
    let mut page = [b'#'; 65536];
    let question = draw_question(&mut page, chart, k, seed);
    let text = part(&page, question.text.size);
    let number = number_due(n, question);
    count_question(table, n, question.text.number, number, tally);
    let rounds = get(table, HEADER, 0);
    let line = question.text.line;
    let filled = if number == 0 { n } else { 0 };
    let filed = same_way(table, filled, question, |v, c, s| {
        same_answer(value_chart(text, v, c, s), rounds, number, line)
    });
    expect(rt, filed, b"valuing", text, tally)?;
    let plain = same_way(table, filled, question, |v, c, s| {
        same_answer(value_plain(text, v, c, s), rounds, number, line)
    });
    expect(rt, plain, b"valuing the plain way", text, tally)
}

// Writes the text. The first question lends the longest rows, the second rows of n numbers, the third one row that is short; in the fourth
// the text is damaged.
fn draw_question(page: &mut Page, chart: &Chart, k: usize, seed: &mut usize) -> Question {
    let n = positions(chart) % 1024;
    let damage = if k == 3 { below(seed, 3) } else { 3 };
    let at = below(seed, lines_of(chart));
    let row = if k == 2 { below(seed, 3) } else { 3 };
    let some = below(seed, n);
    let long = if k == 1 { n } else { 512 };
    Question {
        text: write_damaged(page, chart, damage, at),
        values: if row == 0 { some } else { long },
        choices: if row == 1 { some } else { long },
        steps: if row == 2 { some } else { long },
    }
}

// The refusals in the order of their tests, 0 for none.
fn number_due(n: usize, question: Question) -> usize {
    if question.text.number != 0 {
        return question.text.number;
    }
    let room = (n <= question.values) & (n <= question.choices);
    if room & (n <= question.steps) { 0 } else { 10 }
}

fn count_question(table: &Table, n: usize, damage: usize, number: usize, tally: &mut Tally) {
    if number == 0 {
        add(tally, TAKEN, 1);
        add(tally, POSITIONS, n);
        add(tally, ROUNDS, get(table, HEADER, 0));
        return;
    }
    add(tally, if damage == 0 { SHORT } else { MISDRAWN }, 1);
}

// One way's answer, for rows of the question's lengths, and these: the definitions' of the first positions, and what stayed.
fn same_way<F: FnOnce(&mut [u16], &mut [u16], &mut [u16]) -> bool>(
    table: &Table,
    filled: usize,
    question: Question,
    answers: F,
) -> bool
    requires { F.IsAlwaysCallable answers }
{
    let mut rows = Rows::filled();
    let same = answers(
        &mut rows.values[..question.values.min(512)],
        &mut rows.choices[..question.choices.min(512)],
        &mut rows.steps[..question.steps.min(512)],
    );
    same & rows.are(table, filled)
}

// So many rounds, or the refusal with its line and no other numbers.
fn same_answer(answer: Result<u16, Refusal>, rounds: usize, number: usize, line: usize) -> bool {
    match answer {
        Ok(x) => (number == 0) & (wide(x) == rounds),
        Err(refusal) => is_refusal(refusal, number, line),
    }
}
