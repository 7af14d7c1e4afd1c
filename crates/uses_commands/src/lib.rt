//! Tests of what a session can't show of `apd`: lack of memory, readers and writers that fail, files of the greatest
//! length and such as come in parts; the values of a configuration, a script and a capture; clocks, gates and watchers
//! that a test sets; and that each program on the pages on refusals is refused with its number, and admitted after the
//! fix. The session of `uses_apd` shows everything else.
#![tactic(auto)]

#[cfg(test)]
mod tests;
