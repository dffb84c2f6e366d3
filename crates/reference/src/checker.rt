// Checking by conditions 1 to 6, as document 01 words them, and as document 02 has them at R.
use crate::definition::{GREATEST, LEAST, Weight, over, sum_up};
use crate::sheet::{
    CHOICE, CONTROLLER, Chart, DISTURBED, HEADER, LANE, MEANT, NONE, REST, STEP, Table, VALUE, get,
    is_unsafe, owner, positions,
};

// Where a plate is at fault, and the condition.
#[derive(Clone, Copy)]
pub struct Fault {
    pub position: usize,
    pub condition: usize,
}

// The first fault, positions from 0 up, none where the plate is accepted; condition 6 is answered with position n.
pub fn first_fault(chart: &Chart, table: &Table) -> Option<Fault> {
    let n = positions(chart);
    for v in 0..n {
        if let Some(condition) = fault_at(chart, table, v) {
            return Some(Fault {
                position: v,
                condition,
            });
        }
    }
    (!counted(chart, table)).then_some(Fault {
        position: n,
        condition: 6,
    })
}

fn fault_at(chart: &Chart, table: &Table, v: usize) -> Option<usize> {
    let value = get(table, VALUE, v);
    // An unsafe position has value 0.
    if is_unsafe(chart, v) && value != 0 {
        return Some(1);
    }
    // The step is `-` exactly when the value is "ever".
    if (get(table, STEP, v) == NONE) != (value == NONE) {
        return Some(2);
    }
    if !legal(chart, table, v) {
        return Some(3);
    }
    if !held(chart, table, v, value) {
        return Some(4);
    }
    (!ruined(chart, table, v, value)).then_some(5)
}

// The choice is a meant target at O, `-` at L and at R.
fn legal(chart: &Chart, table: &Table, v: usize) -> bool {
    let choice = get(table, CHOICE, v);
    if owner(chart, v) != CONTROLLER {
        return choice == NONE;
    }
    over(chart, table, v, MEANT, Weight::Named(choice), GREATEST) == 1
}

// At O the choice has at least this value; at O and at R each disturbance's target has at least this value less one. At L each meant
// target has at least this value.
fn held(chart: &Chart, table: &Table, v: usize, value: usize) -> bool {
    let letter = owner(chart, v);
    if letter == LANE {
        return value <= over(chart, table, v, MEANT, Weight::Entry(VALUE), LEAST);
    }
    if letter == CONTROLLER && get(table, VALUE, get(table, CHOICE, v)) < value {
        return false;
    }
    less_one(value) <= over(chart, table, v, DISTURBED, Weight::Entry(VALUE), LEAST)
}

// "ever" less one is "ever".
fn less_one(value: usize) -> usize {
    if value == NONE {
        NONE
    } else {
        value.saturating_sub(1)
    }
}

// A safe position of finite value: at O some disturbance's target has a smaller value, or all meant targets are earlier; at L some
// meant target is earlier; at R some disturbance's target has a smaller value.
fn ruined(chart: &Chart, table: &Table, v: usize, value: usize) -> bool {
    if value == NONE || is_unsafe(chart, v) {
        return true;
    }
    if owner(chart, v) == LANE {
        return over(chart, table, v, MEANT, Weight::Earlier, GREATEST) == 1;
    }
    if over(chart, table, v, DISTURBED, Weight::Entry(VALUE), LEAST) < value {
        return true;
    }
    if owner(chart, v) == REST {
        return false;
    }
    over(chart, table, v, MEANT, Weight::Earlier, LEAST) == 1
}

// The first line's numbers are those of the plate's lines.
fn counted(chart: &Chart, table: &Table) -> bool {
    let mut copy = *table;
    sum_up(chart, &mut copy);
    (0..3).all(|k| get(table, HEADER, k) == get(&copy, HEADER, k))
}
