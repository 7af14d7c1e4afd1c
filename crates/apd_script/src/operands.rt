//! What a keyword and its operands ask for.

ghost use Rattle.std.specs.Prelude.{◌≡◌, ◌<◌, IfSome};
ghost use Rattle.bpf_regions.specs.Maps.{IsShape, word_count};
ghost use Rattle.apd_script.specs.Asked.{asked_by, IsWordOf, NamesWord};
ghost use Rattle.apd_script.specs.Words.{texts};
ghost use Rattle.apd_script.specs.Lines.{frame_said, tick_said, kick_said, close_said, load_said, unload_said, adopt_said, word_in, word_said, store_said, read_said, sum_said, wait_said, command_said};

use crate::command::{Command, MapWord};
use crate::hex_text::HexText;
use crate::words::{address, hook_named, number, number_below};
use bpf_regions::{Scope, Shape, Shapes};
use mac_types::{Reason, Tid};

fn frame<'a>(operands: &[&'a str]) -> Option<Command<'a>>
    ensures is { asked_by result ≡ frame_said (texts operands.now) }
{
    let [digits] = operands else {
        return None;
    };
    let text = HexText::new(digits.as_bytes())?;
    Some(Command::Frame(text))
}

fn tick<'a>(operands: &[&'a str]) -> Option<Command<'a>>
    ensures is { asked_by result ≡ tick_said (texts operands.now) }
{
    let [count] = operands else {
        return None;
    };
    let count = number_below(0x1_0000_0000, count)?;
    Some(Command::Tick(count as u32))
}

fn kick<'a>(operands: &[&'a str]) -> Option<Command<'a>>
    ensures is { asked_by result ≡ kick_said (texts operands.now) }
{
    let [station, reason] = operands else {
        return None;
    };
    let station = address(station)?;
    let code = number_below(0x1_0000, reason)?;
    let reason = Reason::new(code as u16);
    Some(Command::Kick { station, reason })
}

fn close<'a>(operands: &[&'a str]) -> Option<Command<'a>>
    ensures is { asked_by result ≡ close_said (texts operands.now) }
{
    let [station, tid] = operands else {
        return None;
    };
    let station = address(station)?;
    let number = number_below(8, tid)?;
    let tid = Tid::new(number as u8)?;
    Some(Command::Close { station, tid })
}

fn load<'a>(operands: &[&'a str]) -> Option<Command<'a>>
    ensures is { asked_by result ≡ load_said (texts operands.now) }
{
    let [name, path] = operands else {
        return None;
    };
    let hook = hook_named(name)?;
    Some(Command::Load { hook, path })
}

fn unload<'a>(operands: &[&'a str]) -> Option<Command<'a>>
    ensures is { asked_by result ≡ unload_said (texts operands.now) }
{
    let [name] = operands else {
        return None;
    };
    let hook = hook_named(name)?;
    Some(Command::Unload(hook))
}

fn adopt<'a>(operands: &[&'a str]) -> Option<Command<'a>>
    ensures is { asked_by result ≡ adopt_said (texts operands.now) }
{
    let [name, path, certificate] = operands else {
        return None;
    };
    let hook = hook_named(name)?;
    Some(Command::Adopt {
        hook,
        path,
        certificate,
    })
}

/// The word of a map, if the map has that scope.
fn word_in(scope: Scope, map: u32, shape: Shape, index: &str, word: &str) -> Option<MapWord>
    requires { IsShape shape }
    ensures is { result ≡ word_in scope map shape index.now word.now }
    ensures map { IfSome result (λ at. at.map ≡ map) }
    ensures scope { IfSome result (λ at. shape.scope ≡ scope) }
    ensures within { IfSome result (λ at. at.word < word_count shape) }
{
    let entry = number_below(u64::from(shape.entries), index)?;
    let place = number_below(u64::from(shape.words), word)?;
    if shape.scope == scope {
        let word = entry as u32 * shape.words + place as u32;
        Some(MapWord { map, word })
    } else {
        None
    }
}

/// The word at a map's number, an entry's index and an index in the entry.
fn word_named(shapes: &Shapes, scope: Scope, map: &str, index: &str, word: &str) -> Option<MapWord>
    ensures is { result ≡ word_said shapes.now scope map.now index.now word.now }
    ensures within { IfSome result (IsWordOf shapes.now scope) }
{
    shapes.whole();
    let map = number_below(shapes.len() as u64, map)?;
    let shape = shapes.get(map as u32)?;
    word_in(scope, map as u32, shape, index, word)
}

fn store<'a>(shapes: &Shapes, operands: &[&'a str]) -> Option<Command<'a>>
    ensures is { asked_by result ≡ store_said shapes.now (texts operands.now) }
    ensures within { IfSome result (NamesWord shapes.now) }
{
    let [map, index, word, value] = operands else {
        return None;
    };
    let word = word_named(shapes, Scope::Shared, map, index, word)?;
    let value = number(value)?;
    Some(Command::Store { word, value })
}

fn read<'a>(shapes: &Shapes, operands: &[&'a str]) -> Option<Command<'a>>
    ensures is { asked_by result ≡ read_said shapes.now (texts operands.now) }
    ensures within { IfSome result (NamesWord shapes.now) }
{
    let [map, index, word] = operands else {
        return None;
    };
    let word = word_named(shapes, Scope::Shared, map, index, word)?;
    Some(Command::Read(word))
}

fn sum<'a>(shapes: &Shapes, operands: &[&'a str]) -> Option<Command<'a>>
    ensures is { asked_by result ≡ sum_said shapes.now (texts operands.now) }
    ensures within { IfSome result (NamesWord shapes.now) }
{
    let [map, index, word] = operands else {
        return None;
    };
    let word = word_named(shapes, Scope::Worker, map, index, word)?;
    Some(Command::Sum(word))
}

fn wait<'a>(operands: &[&'a str]) -> Option<Command<'a>>
    ensures is { asked_by result ≡ wait_said (texts operands.now) }
{
    if operands.is_empty() {
        Some(Command::Wait)
    } else {
        None
    }
}

/// What a keyword and its operands ask for.
pub(crate) fn command<'a>(
    shapes: &Shapes,
    keyword: &str,
    operands: &[&'a str],
) -> Option<Command<'a>>
    ensures is { asked_by result ≡ command_said shapes.now keyword.now (texts operands.now) }
    ensures within { IfSome result (NamesWord shapes.now) }
{
    match keyword {
        "frame" => frame(operands),
        "tick" => tick(operands),
        "kick" => kick(operands),
        "close" => close(operands),
        "load" => load(operands),
        "unload" => unload(operands),
        "adopt" => adopt(operands),
        "store" => store(shapes, operands),
        "read" => read(shapes, operands),
        "sum" => sum(shapes, operands),
        "wait" => wait(operands),
        _ => None,
    }
}
