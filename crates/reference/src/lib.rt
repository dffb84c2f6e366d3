// Another implementation of document 01's definitions, for the test programs that hold the library's answers against it: charts, their
// texts, values, choices, steps and worths, plates and their faults. Nothing of the library's own is in it but the types of its answers.
#![tactic(auto)]

pub mod altered;
pub mod answers;
pub mod checker;
pub mod definition;
pub mod generate;
pub mod kinds;
pub mod sheet;
pub mod tally;
pub mod text;
