//! Answers to questions, which are given while all workers rest.

ghost use Rattle.std.specs.List.{list_all};
ghost use Rattle.std.specs.Prelude.{◌≡◌, ◌==◌, ◌++◌, map, IfOk, OnOk, OnErr, Some, vec_len};
ghost use Rattle.apd_driver.specs.Crews.{LooksOn};
ghost use Rattle.apd_driver.specs.Following.{IsLook, for_use};
ghost use Rattle.apd_driver.specs.Asking.{Answers, BreaksAnswer, ListsEntries, TellsAnswer, entry_if, shown};

use crate::actions::WordUse;
use crate::console::Console;
use crate::crew::Serving;
use crate::operating::Operating;
use crate::setting::Setting;
use crate::{Answer, EntryRow, PrintFault, Told, print_answer};
use apd_script::{MapWord, NumberedQuestion, Question, usages};
use bpf_regions::{Scope, Shape};
use std::alloc::{AllocError, Global};
use std::sync::Wait;

/// A map by its number, and its shape.
#[derive(Clone, Copy)]
struct Map {
    number: u32,
    shape: Shape,
}

impl Map {
    /// How a word of an entry is read: at once, or summed over all workers.
    fn use_of(&self, index: u32, place: u32) -> WordUse
        ensures look { IsLook (for_use result) }
    {
        let word = MapWord {
            map: self.number,
            word: index.saturating_mul(self.shape.words).saturating_add(place),
        };
        match self.shape.scope {
            Scope::Shared => WordUse::Read(word),
            Scope::Worker => WordUse::Sum(word),
        }
    }
}

/// The value of a word of a map; 0 if there is no such word.
#[tactic(auto, using(crate::proofs::Looks::looks_one))]
fn value_of<W: Serving + Drop, O: Operating<W>>(operator: &mut O, wanted: WordUse) -> u64
    ensures looks { IsLook (for_use wanted) → LooksOn (O.crew operator.old) (O.crew operator.new) }
{
    match operator.use_word(wanted) {
        Some(Told::Word { value }) => value,
        _ => 0,
    }
}

/// The words of an entry.
fn words_of<W: Serving + Drop, O: Operating<W>>(
    alloc: Global,
    operator: &mut O,
    map: Map,
    index: u32,
) -> Result<Vec<u64>, AllocError>
    ensures looks { LooksOn (O.crew operator.old) (O.crew operator.new) }
    ensures many { IfOk result (λ words. vec_len words ≡ map.shape.words) }
{
    let mut words = Vec::new(alloc);
    for place in 0..map.shape.words {
        let value = value_of(operator, map.use_of(index, place));
        words.push(value)?;
    }
    Ok(words)
}

fn are_zeros(words: &[u64]) -> bool
    ensures is { result ≡ list_all (λ word. word == 0) words.now }
{
    words.iter().all(|word| *word == 0)
}

/// Appends an entry, unless all its words are 0.
fn add_entry(entries: &mut Vec<EntryRow>, index: u32, words: Vec<u64>) -> Result<(), AllocError>
    ensures added { OnOk result (map shown entries.new.items
        ≡ map shown entries.old.items ++ entry_if index words.items) }
{
    if are_zeros(words.as_slice()) {
        return Ok(());
    }
    entries.push(EntryRow { index, words })?;
    Ok(())
}

/// The entries of a map that aren't all 0.
fn dump<W: Serving + Drop, O: Operating<W>>(
    alloc: Global,
    operator: &mut O,
    map: Map,
) -> Result<Vec<EntryRow>, AllocError>
    ensures looks { LooksOn (O.crew operator.old) (O.crew operator.new) }
    ensures lists { IfOk result (λ rows. ListsEntries map.shape rows.items) }
{
    let mut entries = Vec::new(alloc);
    for index in 0..map.shape.entries {
        let words = words_of(alloc, operator, map, index)?;
        add_entry(&mut entries, index, words)?;
    }
    Ok(entries)
}

/// The answer to a question.
#[tactic(auto, using(crate::proofs::Looks::looks_none))]
fn answer_to<W: Serving + Drop, O: Operating<W>, R: Wait>(
    rt: &R,
    alloc: Global,
    operator: &mut O,
    question: Question,
) -> Result<Answer, AllocError>
    ensures looks { LooksOn (O.crew operator.old) (O.crew operator.new) }
    ensures answers { IfOk result (Answers (O.crew operator.old).counted question) }
{
    match question {
        Question::Help => {
            let usages = usages(alloc)?;
            Ok(Answer::Usages(usages))
        }
        Question::Stations => {
            let rows = operator.stations(rt, alloc)?;
            Ok(Answer::Stations(rows))
        }
        Question::Agreements => {
            let rows = operator.agreements(rt, alloc)?;
            Ok(Answer::Agreements(rows))
        }
        Question::Programs => {
            let rows = operator.programs(alloc)?;
            Ok(Answer::Programs(rows))
        }
        Question::Counters => Ok(Answer::Counters(operator.counted())),
        Question::Dump { map, shape } => {
            let entries = dump(alloc, operator, Map { number: map, shape })?;
            Ok(Answer::Dump {
                map,
                shape,
                entries,
            })
        }
    }
}

/// Prints the answer to a question, if there is one.
#[tactic(auto, using(crate::proofs::Looks::looks_none))]
pub(crate) fn tell<W: Serving + Drop, O: Operating<W>, R: Wait, P: Console>(
    setting: &Setting<'_, W, R>,
    operator: &mut O,
    asked: Option<NumberedQuestion>,
    writer: &mut P,
) -> Result<(), PrintFault>
    ensures looks { LooksOn (O.crew operator.old) (O.crew operator.new) }
    ensures tells { OnOk result (TellsAnswer (O.crew operator.old).counted
        (P.contents writer.old) (P.contents writer.new)) }
    ensures breaks { OnErr result (BreaksAnswer (O.crew operator.old).counted
        (P.contents writer.old) (P.contents writer.new)) }
    ensures kept { P.recorded writer.new ≡ P.recorded writer.old }
{
    let Some(NumberedQuestion { line, question }) = asked else {
        return Ok(());
    };
    let answer = answer_to(setting.rt, setting.alloc, operator, question)?;
    print_answer(setting.alloc, writer, line, &answer)?;
    Ok(())
}
