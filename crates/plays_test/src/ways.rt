// The way to ruin: the library's answer, and every byte of the lent buffer, held against the best of all plays. The choices are legal ones that
// are drawn; in 8 of 24 questions the text may be damaged, the row short, a choice any number and the position past the end.
use crate::plays::{Play, Walk, search};
use reference::altered::{choose, choose_drawn, ways};
use reference::answers::is_refusal;
use reference::definition::{GREATEST, Weight, over};
use reference::generate::below;
use reference::sheet::{CHOICE, CONTROLLER, Chart, MEANT, NONE, Table, owner, positions, put};
use reference::tally::{Tally, add, expect};
use reference::text::{Damaged, Page, lines_of, part, put_numbers, same_pages, write_damaged};
use ruin::list_way_to_ruin;
use std::io;

// What is counted, in the order in which it is written: ways taken, of 0, 1 and more disturbances; those among them that have another unsafe
// play with as many disturbances and more moves, and with as many of both; refusals for the chart, with 10 for the row, 12, 13, 19 and 10 for
// the buffer; the unsafe plays that were found, and the lines of the longest way.
pub const COUNTED: usize = 13;

const OF_MOVES: usize = 3;

const OF_POSITIONS: usize = 4;

const PLAYS: usize = 11;

const LONGEST: usize = 12;

// What is asked: the text; the length of the row of choices; the position.
#[derive(Clone, Copy)]
struct Question {
    text: Damaged,
    choices: usize,
    position: usize,
}

// Questions about a chart, numbered from 0. Of up to two positions the first 16 are every controller from every number below 4.
pub fn compare_ways(
    rt: &impl Print,
    chart: &Chart,
    seed: &mut usize,
    tally: &mut Tally,
) -> io::Result<()> {
    for k in 0..24 {
        compare_way(rt, chart, k, seed, tally)?;
    }
    Ok(())
}

// The buffer has a byte less than the lines take, as many bytes, or up to 24 more. Question 15, whose way may be the longest, has as many.
fn compare_way(
    rt: &impl Print,
    chart: &Chart,
    k: usize,
    seed: &mut usize,
    tally: &mut Tally,
) -> io::Result<()> {
    let mut page = [b'#'; 65536];
    let mut table = [0usize; 4096];
    let mut row = [4660u16; 512];
    let legal = draw_choices(chart, &mut table, &mut row, k, seed);
    let question = draw_question(&mut page, chart, k, seed);
    let walk = if question.position < positions(chart) {
        search(chart, &table, question.position)
    } else {
        Walk::none()
    };
    let past = match k % 4 {
        0 => below(seed, 26),
        3 => 1,
        _ => below(seed, 2),
    };
    let room = (walk.best.length % 1024 * 12 + past % 32 + 8191) % 8192;
    let answered = answer_due(chart, &walk.best, legal, question, room);
    let text = part(&page, question.text.size);
    let same = same_answer(text, &row, question, room, &walk.best, answered);
    count_way(&walk, answered, tally);
    expect(rt, same & walk.is_over(), b"the way to ruin", text, tally)
}

// Legal choices; from question 16 on one of them may be any number. Answers whether that is legal too: a meant target at O, none elsewhere.
fn draw_choices(
    chart: &Chart,
    table: &mut Table,
    row: &mut [u16; 512],
    k: usize,
    seed: &mut usize,
) -> bool {
    let n = positions(chart) % 1024;
    let here = if ways(chart, 0) == 2 { k % 2 } else { 0 };
    let there = if ways(chart, 1) == 2 { k / 2 % 2 } else { 0 };
    choose_drawn(chart, table, row, seed);
    if n <= 2 {
        choose(chart, table, row, 0, here);
        choose(chart, table, row, 1, there);
    }
    let v = below(seed, n);
    let any = below(seed, n + 2);
    let x = if any == n { NONE } else { any };
    if (k < 16) | (below(seed, 2) == 0) {
        return true;
    }
    put(table, CHOICE, v, x);
    row[v % 512] = (x % 65536) as u16;
    if owner(chart, v) == CONTROLLER {
        return over(chart, table, v, MEANT, Weight::Named(x), GREATEST) == 1;
    }
    x == NONE
}

// Writes the text. From question 16 on it may be damaged, and the row may be short.
fn draw_question(page: &mut Page, chart: &Chart, k: usize, seed: &mut usize) -> Question {
    let n = positions(chart) % 1024;
    let damage = if k < 16 { 3 } else { below(seed, 16) };
    let at = below(seed, lines_of(chart));
    let short = (16 <= k) & (below(seed, 3) == 0);
    let some = below(seed, n + 1);
    Question {
        text: write_damaged(page, chart, damage, at),
        choices: if short { some } else { 512 },
        position: draw_position(n, k, seed),
    }
}

// Where the play begins: of up to two positions each in turn, else one that is drawn, the last at question 15; from question 16 on past the
// end every other time.
fn draw_position(n: usize, k: usize, seed: &mut usize) -> usize {
    if (n <= 2) & (k < 16) {
        return k / 4;
    }
    let way = if k < 16 { 8 } else { below(seed, 8) };
    let inside = below(seed, n);
    match way {
        0 => n,
        1 => n % 1024 + inside % 1024,
        2 => 65536 + inside % 1024,
        3 => usize::MAX,
        _ => {
            if k == 15 {
                (n % 1024 + 1023) % 1024
            } else {
                inside
            }
        }
    }
}

// The refusals in the order of their tests, by the count that each goes to; or that of the way.
fn answer_due(chart: &Chart, best: &Play, legal: bool, question: Question, room: usize) -> usize {
    let n = positions(chart);
    let lines = best.length % 1024;
    if question.text.number != 0 {
        return 5;
    }
    if question.choices < n {
        return 6;
    }
    if !legal {
        return 7;
    }
    if n <= question.position {
        return 8;
    }
    if lines == 0 {
        return 9;
    }
    if room < lines * 12 {
        return 10;
    }
    best.disturbances().min(2)
}

fn count_way(walk: &Walk, answered: usize, tally: &mut Tally) {
    add(tally, answered, 1);
    add(tally, PLAYS, walk.found);
    if answered < 3 {
        add(tally, OF_MOVES, usize::from(walk.by_moves));
        add(tally, OF_POSITIONS, usize::from(walk.by_position));
        tally[LONGEST] = tally[LONGEST].max(walk.best.length);
    }
}

// The library's answer, with so many of the choices and so much of a page lent, and every byte of the page: so many lines, or the refusal with
// its line and no other numbers.
fn same_answer(
    text: &[u8],
    row: &[u16; 512],
    question: Question,
    room: usize,
    best: &Play,
    answered: usize,
) -> bool {
    let mut page = [b'#'; 65536];
    let mut lent = [b'#'; 65536];
    let lines = if answered < 3 { best.length } else { 0 };
    write_way(&mut page, best, lines);
    let answer = list_way_to_ruin(
        text,
        &row[..question.choices.min(512)],
        question.position,
        &mut lent[..room.min(65536)],
    );
    let same = same_pages(&page, &lent, 8192);
    let number = match answered {
        5 => question.text.number,
        7 => 12,
        8 => 13,
        9 => 19,
        _ => 10,
    };
    match answer {
        Ok(x) => same & (answered < 3) & (x == lines),
        Err(refusal) => { same & (3 <= answered) & is_refusal(refusal, number, question.text.line) }
    }
}

fn write_way(page: &mut Page, best: &Play, lines: usize) {
    for (k, (place, led)) in best.places.iter().zip(&best.led).take(lines).enumerate() {
        put_numbers(page, k, 87, *place, usize::from(*led));
    }
}
