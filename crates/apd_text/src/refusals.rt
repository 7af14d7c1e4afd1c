//! What each number of a refusal means, for people: in words, with the habit that leads to it, a refused program, and
//! the fix.
//!
//! `explain` returns the page of a number, and `page_text` its text, which begins with the number. The contracts
//! promise only the numbers. Tests show that each program is refused with its number, and admitted after the fix.
mod certificates;
mod code;
mod frames;
mod live;
mod page;
mod text;
mod verifier;

pub use page::{Example, Explanation, explain, page_text};
