// CAP 1.2's schema: names of elements, and which element may follow which.

#![tactic(auto)]

pub mod class; // class.rt: the numbers of the elements
pub mod names; // names.rt: elements by name
pub mod order; // order.rt: the table of sequences
