// The index of a small chart by the words of document 02: the forms that a position can have are gone through in their order and counted,
// and position 0 is the leading digit.
use reference::definition::target;
use reference::sheet::{
    CONTROLLER, COUNTS, Chart, DISTURBED, LANE, MEANT, cell, is_unsafe, owner, positions, rests,
};

// A position's form: its letter, its mark, and the sets of its meant targets and of its disturbances'.
#[derive(Clone, Copy, PartialEq, Eq)]
struct Form {
    letter: usize,
    mark: usize,
    meant: usize,
    disturbed: usize,
}

// "all charts of 1 to 3 positions, letters O, L, M and D only"
pub fn is_small(chart: &Chart) -> bool {
    (positions(chart) <= 3) & (rests(chart) == 0)
}

// The index of a small chart.
pub fn index_of(chart: &Chart) -> usize {
    let n = positions(chart);
    let forms = forms_of(n);
    let mut index = 0;
    for v in 0..n {
        index = appended(index, forms, rank(Some(form_at(chart, v)), n));
    }
    index
}

// How many small charts there are of so many positions.
pub fn charts_of(n: usize) -> usize {
    let forms = forms_of(n);
    let one = appended(1, forms, 0);
    let two = appended(one, forms, 0);
    match n {
        1 => one,
        2 => two,
        3 => appended(two, forms, 0),
        _ => 0,
    }
}

// A numeral with one digit more.
fn appended(numeral: usize, forms: usize, digit: usize) -> usize {
    numeral % 1000000 * (forms % 1024) + digit % 1024
}

// How many forms a position can have where there are n.
fn forms_of(n: usize) -> usize {
    rank(None, n)
}

// How many forms come before this one; before none are all of them.
fn rank(form: Option<Form>, n: usize) -> usize {
    let mut at = Some(Form {
        letter: CONTROLLER,
        mark: 0,
        meant: 1,
        disturbed: 0,
    });
    for k in 0..1000 {
        if at == form {
            return k;
        }
        at = at.and_then(|f| next_form(f, n));
    }
    1000
}

// "Within a position O comes before L, then the mark, then the meant set, then the disturbance set": the last of these that can goes on, and
// those after it begin again. A meant set is not empty.
fn next_form(form: Form, n: usize) -> Option<Form> {
    let last = set_of_all(n);
    let mut next = form;
    next.disturbed = 0;
    if (form.letter == CONTROLLER) & (form.disturbed < last) {
        next.disturbed = form.disturbed % 8 + 1;
        return Some(next);
    }
    next.meant = 1;
    if form.meant < last {
        next.meant = form.meant % 8 + 1;
        return Some(next);
    }
    next.mark = 0;
    if form.mark == 0 {
        next.mark = 1;
        return Some(next);
    }
    next.letter = LANE;
    (form.letter == CONTROLLER).then_some(next)
}

// The set of all n positions.
fn set_of_all(n: usize) -> usize {
    match n {
        1 => 1,
        2 => 3,
        _ => 7,
    }
}

fn form_at(chart: &Chart, v: usize) -> Form {
    Form {
        letter: owner(chart, v),
        mark: usize::from(is_unsafe(chart, v)),
        meant: set_at(chart, v, MEANT),
        disturbed: set_at(chart, v, DISTURBED),
    }
}

// "a set counts 2 to the i for each target i"
fn set_at(chart: &Chart, v: usize, kind: usize) -> usize {
    let count = cell(chart, COUNTS, kind % 4096 + v % 512);
    let mut set = 0;
    for i in 0..count {
        set = set % 8 + power(target(chart, v, kind, i)) % 8;
    }
    set
}

// 2 to the i.
fn power(i: usize) -> usize {
    match i {
        0 => 1,
        1 => 2,
        _ => 4,
    }
}
