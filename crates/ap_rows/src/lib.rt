//! Rows: two lists whose elements at each index belong together, such as queues and their handles,
//! or tables and their seats. Definitions and lemmas only, which depend only on std.
#![tactic(auto)]
