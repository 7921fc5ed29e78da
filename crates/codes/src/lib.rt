// CAP's codes: their lists, a number for each code, the texts of the numbers, and the values that a fact sheet holds.

#![tactic(auto)]

pub mod list; // list.rt: the numbers of the lists
pub mod texts; // texts.rt: codes by their texts
pub mod values; // values.rt: values by their numbers

pub use values::Code;

#[derive(Clone, Copy, Debug, PartialEq, Eq)]
pub enum MessageType {
    Alert,
    Update,
    Cancel,
    Ack,
    Error,
}

#[derive(Clone, Copy, Debug, PartialEq, Eq)]
pub enum Status {
    Actual,
    Exercise,
    System,
    Test,
    Draft,
}

#[derive(Clone, Copy, Debug, PartialEq, Eq)]
pub enum Scope {
    Public,
    Restricted,
    Private,
}

#[derive(Clone, Copy, Debug, PartialEq, Eq)]
pub enum Urgency {
    Immediate,
    Expected,
    Future,
    Past,
    Unknown,
}

#[derive(Clone, Copy, Debug, PartialEq, Eq)]
pub enum Severity {
    Extreme,
    Severe,
    Moderate,
    Minor,
    Unknown,
}

#[derive(Clone, Copy, Debug, PartialEq, Eq)]
pub enum Certainty {
    Observed,
    Likely,
    Possible,
    Unlikely,
    Unknown,
}
