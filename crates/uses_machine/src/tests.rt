//! Words, regions and faults; the domain from tristate numbers to finished states; and certificates as bytes.

mod abstract_values;
mod branches;
mod by_hand;
mod faults;
mod finished_states;
mod format;
mod intervals;
mod numbers;
mod regions;
mod same;
mod small;
mod stacks;
mod states;
mod tristate;
mod values;
mod words;
