//! The numbers of refusals that have a page.
//!
//! `list_text` lists them with their titles, and `ranges_text` gives their ranges in one line. Only tests show the
//! texts.

use crate::refusals::explain;
use std::alloc::{AllocError, Global};
use std::fmt::Write;

/// A line for each number that has a page: the number and the page's title.
pub fn list_text(alloc: Global) -> Result<String, AllocError> {
    let mut text = String::new(alloc);
    for number in 0..=255u8 {
        if let Some(page) = explain(number) {
            writeln!(text, "{number}: {}", page.title)?;
        }
    }
    Ok(text)
}

/// The ranges of numbers that have a page, separated by commas.
pub fn ranges_text(alloc: Global) -> Result<String, AllocError> {
    let mut text = String::new(alloc);
    let mut first: Option<u8> = None;
    for number in 0..=255u8 {
        match (first, explain(number).is_some()) {
            (None, true) => first = Some(number),
            (Some(from), false) => {
                append_range(&mut text, from, number.saturating_sub(1))?;
                first = None;
            }
            _ => {}
        }
    }
    Ok(text)
}

fn append_range(text: &mut String, from: u8, to: u8) -> Result<(), AllocError> {
    if !text.is_empty() {
        text.push_str(", ")?;
    }
    if from == to {
        write!(text, "{from}")?;
    } else {
        write!(text, "{from} to {to}")?;
    }
    Ok(())
}
