//! The commands of `apd` that answer a question: all but `run` and `live`, which take threads.
//!
//! Main call: `apd_main`, which reads the words once; what they ask for determines the rest. `respond` answers a question
//! that was read.
#![tactic(auto)]

mod admission;
mod answer;
mod case_files;
mod certificates;
mod eval;
mod explain;
mod fault;
mod frames;
mod graph;
mod help;
mod hints;
mod inputs;
mod messages;
mod output;
mod program;
mod repeat;
mod script_text;
mod span;
mod texts;
mod verdicts;

pub use answer::Answer;
pub use case_files::judge_cases;
pub use fault::ProgramFault;
pub use messages::complain;
pub use program::{Posed, apd_main, respond, tell};
pub use script_text::ScriptText;
