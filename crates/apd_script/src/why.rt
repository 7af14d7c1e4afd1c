//! How lines are written, and why one is malformed, in words for people.

ghost use Rattle.std.specs.Prelude.{◌≡◌, ◌+◌, length, vec_len, IfOk, OnOk};

use crate::hex_text::{HexText, are_digits};
use crate::line::{cut_words, next_word};
use crate::read::first_line;
use crate::words::{address, hook_named, number, number_below};
use bpf_regions::{Scope, Shape, Shapes};
use std::alloc::{AllocError, Global};
use std::{fmt, str};

/// Why a line is malformed. It is displayed in words; no contract promises anything of them.
#[derive(Clone, Copy, Debug)]
pub enum LineFault<'a> {
    /// The whole text is a capture.
    Capture,
    /// The whole text is an object file.
    ObjectFile,
    ByteOrderMark,
    Tab,
    CarriageReturn,
    Encoding,
    /// A line that is read as it comes has more than 8192 bytes.
    TooLong,
    /// None of the other variants says why.
    Other,
    /// No command has this name; `near` is a similar one, if there is one.
    UnknownWord {
        word: &'a str,
        near: Option<&'static str>,
    },
    /// The command takes another number of operands.
    Operands(Form),
    /// The command doesn't take this operand.
    Operand {
        keyword: &'static str,
        word: &'a str,
        fault: OperandFault,
    },
}

/// Why a command doesn't take an operand.
#[derive(Clone, Copy, Debug)]
pub enum OperandFault {
    NoDigits,
    OddDigits,
    NoUnits,
    NoAddress,
    NoReason,
    NoTid,
    NoHook,
    NoNumber,
    /// The number of maps.
    NoMap(usize),
    /// The number of the map's entries.
    NoEntry(u32),
    /// The number of words of the map's entries.
    NoWord(u32),
    /// The map's scope.
    OtherScope(Scope),
    NoValue,
}

/// A kind of operand.
#[derive(Clone, Copy, Debug)]
pub(crate) enum Operand {
    Digits,
    Units,
    Station,
    Reason,
    Tid,
    Hook,
    File,
    Certificate,
    Map,
    Entry,
    Word,
    Value,
}

/// How a line is written: its name, its operands, and the scope of the map whose words it takes, if it takes any.
#[derive(Clone, Copy, Debug)]
pub struct Form {
    keyword: &'static str,
    operands: &'static [Operand],
    scope: Option<Scope>,
}

static FORMS: [Form; 11] = [
    Form {
        keyword: "frame",
        operands: &[Operand::Digits],
        scope: None,
    },
    Form {
        keyword: "tick",
        operands: &[Operand::Units],
        scope: None,
    },
    Form {
        keyword: "kick",
        operands: &[Operand::Station, Operand::Reason],
        scope: None,
    },
    Form {
        keyword: "close",
        operands: &[Operand::Station, Operand::Tid],
        scope: None,
    },
    Form {
        keyword: "load",
        operands: &[Operand::Hook, Operand::File],
        scope: None,
    },
    Form {
        keyword: "unload",
        operands: &[Operand::Hook],
        scope: None,
    },
    Form {
        keyword: "adopt",
        operands: &[Operand::Hook, Operand::File, Operand::Certificate],
        scope: None,
    },
    Form {
        keyword: "store",
        operands: &[Operand::Map, Operand::Entry, Operand::Word, Operand::Value],
        scope: Some(Scope::Shared),
    },
    Form {
        keyword: "read",
        operands: &[Operand::Map, Operand::Entry, Operand::Word],
        scope: Some(Scope::Shared),
    },
    Form {
        keyword: "sum",
        operands: &[Operand::Map, Operand::Entry, Operand::Word],
        scope: Some(Scope::Worker),
    },
    Form {
        keyword: "wait",
        operands: &[],
        scope: None,
    },
];

/// The lines of `apd live` alone that ask to be told something.
static QUESTIONS: [Form; 6] = [
    Form {
        keyword: "help",
        operands: &[],
        scope: None,
    },
    Form {
        keyword: "stations",
        operands: &[],
        scope: None,
    },
    Form {
        keyword: "agreements",
        operands: &[],
        scope: None,
    },
    Form {
        keyword: "programs",
        operands: &[],
        scope: None,
    },
    Form {
        keyword: "counters",
        operands: &[],
        scope: None,
    },
    Form {
        keyword: "dump",
        operands: &[Operand::Map],
        scope: None,
    },
];

/// The line that ends `apd live`.
static QUIT: [Form; 1] = [Form {
    keyword: "quit",
    operands: &[],
    scope: None,
}];

/// The first bytes of capture files.
static CAPTURES: [&[u8]; 5] = [
    b"\xd4\xc3\xb2\xa1",
    b"\xa1\xb2\xc3\xd4",
    b"\x4d\x3c\xb2\xa1",
    b"\xa1\xb2\x3c\x4d",
    b"\x0a\x0d\x0d\x0a",
];

/// The most characters of a word that a message repeats.
const SHOWN: usize = 40;

/// Why the line of a text with this number, counted from 1, is malformed; `None` if it is well formed.
pub fn line_fault<'a>(text: &'a [u8], number: u64, shapes: &Shapes) -> Option<LineFault<'a>> {
    if let Some(fault) = text_fault(text, number) {
        return Some(fault);
    }
    words_fault(shapes, line_at(text, number), &[])
}

/// Why the line of a text with this number, counted from 1, can't be one of any command; `None` if its words decide.
pub fn text_fault<'a>(text: &'a [u8], number: u64) -> Option<LineFault<'a>> {
    if is_capture(text) {
        return Some(LineFault::Capture);
    }
    if text.starts_with(b"\x7fELF") {
        return Some(LineFault::ObjectFile);
    }
    let line = line_at(text, number);
    if number == 1 && line.starts_with(b"\xef\xbb\xbf") {
        return Some(LineFault::ByteOrderMark);
    }
    bytes_fault(line)
}

/// Why a line of `apd live` is malformed; `None` if it is a line of a script, or a question.
pub(crate) fn live_fault<'a>(line: &'a [u8], shapes: &Shapes) -> Option<LineFault<'a>> {
    if is_capture(line) {
        return Some(LineFault::Capture);
    }
    if line.starts_with(b"\x7fELF") {
        return Some(LineFault::ObjectFile);
    }
    if line.starts_with(b"\xef\xbb\xbf") {
        return Some(LineFault::ByteOrderMark);
    }
    words_fault(shapes, line, &QUESTIONS)
}

/// Why the bytes of a line aren't written like a command, or like one of these forms.
fn words_fault<'a>(shapes: &Shapes, line: &'a [u8], more: &[Form]) -> Option<LineFault<'a>> {
    if let Some(fault) = bytes_fault(line) {
        return Some(fault);
    }
    match str::from_utf8(line) {
        Ok(line) => command_fault(shapes, line, more),
        Err(_) => Some(LineFault::Encoding),
    }
}

/// Why the bytes of a line aren't words separated by spaces.
fn bytes_fault<'a>(line: &'a [u8]) -> Option<LineFault<'a>> {
    if line.contains(&b'\t') {
        return Some(LineFault::Tab);
    }
    if line.contains(&b'\r') {
        return Some(LineFault::CarriageReturn);
    }
    match str::from_utf8(line) {
        Ok(_) => None,
        Err(_) => Some(LineFault::Encoding),
    }
}

fn is_capture(text: &[u8]) -> bool {
    for magic in CAPTURES {
        if text.starts_with(magic) {
            return true;
        }
    }
    false
}

/// The line with this number, counted from 1, or the last line if there are fewer.
pub fn line_at(text: &[u8], number: u64) -> &[u8] {
    let mut rest = text;
    for _ in 1..number {
        match first_line(rest) {
            (_, Some(next)) => rest = next,
            (line, None) => return line,
        }
    }
    first_line(rest).0
}

/// Why the words of a line aren't a command, nor of one of these forms.
fn command_fault<'a>(shapes: &Shapes, line: &'a str, more: &[Form]) -> Option<LineFault<'a>> {
    let (word, rest) = next_word(line)?;
    let form = match form_of(&FORMS, word) {
        Some(form) => Some(form),
        None => form_of(more, word),
    };
    match form {
        Some(form) => form_fault(shapes, form, rest),
        None => Some(LineFault::UnknownWord {
            word,
            near: match near(&FORMS, word) {
                Some(name) => Some(name),
                None => near(more, word),
            },
        }),
    }
}

/// Why the text after a command's name isn't its operands.
fn form_fault<'a>(shapes: &Shapes, form: Form, rest: &'a str) -> Option<LineFault<'a>> {
    let mut operands = [""; 4];
    match cut_words(rest, &mut operands) {
        Some(count) if count == form.operands.len() => {
            operand_fault(shapes, form, &operands[..count])
        }
        _ => Some(LineFault::Operands(form)),
    }
}

/// Why one of a command's operands, whose number is right, isn't allowed.
fn operand_fault<'a>(shapes: &Shapes, form: Form, words: &[&'a str]) -> Option<LineFault<'a>> {
    match first_fault(shapes, form, words) {
        Some((place, fault)) => match words.get(place) {
            Some(word) => Some(LineFault::Operand {
                keyword: form.keyword,
                word: *word,
                fault,
            }),
            None => None,
        },
        None => None,
    }
}

/// The form with this name.
fn form_of(forms: &[Form], word: &str) -> Option<Form> {
    for form in forms {
        if form.keyword == word {
            return Some(*form);
        }
    }
    None
}

/// The name of a form that differs from a word by one typing error.
fn near(forms: &[Form], word: &str) -> Option<&'static str> {
    for form in forms {
        if is_near(word.as_bytes(), form.keyword.as_bytes()) {
            return Some(form.keyword);
        }
    }
    None
}

/// Whether two words differ in one letter, in the order of two, or only in case.
pub fn is_near(word: &[u8], keyword: &[u8]) -> bool {
    if word.eq_ignore_ascii_case(keyword) {
        return true;
    }
    let front = common_front(word, keyword);
    let word = word.get(front..).unwrap_or(&[]);
    let keyword = keyword.get(front..).unwrap_or(&[]);
    let back = common_back(word, keyword);
    let word = word.get(..word.len().saturating_sub(back)).unwrap_or(&[]);
    let keyword = keyword
        .get(..keyword.len().saturating_sub(back))
        .unwrap_or(&[]);
    match (word, keyword) {
        ([], [_]) | ([_], []) | ([_], [_]) => true,
        ([first, second], [other, another]) => first == another && second == other,
        _ => false,
    }
}

/// The length of two words' common prefix.
fn common_front(word: &[u8], other: &[u8]) -> usize {
    let mut count: usize = 0;
    for (byte, another) in word.iter().zip(other.iter()) {
        if byte != another {
            return count;
        }
        count = count.saturating_add(1);
    }
    count
}

/// The length of two words' common suffix.
fn common_back(word: &[u8], other: &[u8]) -> usize {
    let mut count: usize = 0;
    for (byte, another) in word.iter().rev().zip(other.iter().rev()) {
        if byte != another {
            return count;
        }
        count = count.saturating_add(1);
    }
    count
}

/// The index of the first operand that isn't allowed, and why.
fn first_fault(shapes: &Shapes, form: Form, words: &[&str]) -> Option<(usize, OperandFault)> {
    if let Some(scope) = form.scope {
        return map_fault(shapes, scope, words);
    }
    for (place, operand) in form.operands.iter().enumerate() {
        let word = *words.get(place)?;
        if let Some(fault) = word_fault(shapes, *operand, word) {
            return Some((place, fault));
        }
    }
    None
}

/// Why an operand isn't allowed, if the command takes no map's words.
fn word_fault(shapes: &Shapes, operand: Operand, word: &str) -> Option<OperandFault> {
    let (is_one, fault) = match operand {
        Operand::Digits => (HexText::new(word.as_bytes()).is_some(), digit_fault(word)),
        Operand::Units => (
            number_below(0x1_0000_0000, word).is_some(),
            OperandFault::NoUnits,
        ),
        Operand::Station => (address(word).is_some(), OperandFault::NoAddress),
        Operand::Reason => (
            number_below(0x1_0000, word).is_some(),
            OperandFault::NoReason,
        ),
        Operand::Tid => (number_below(8, word).is_some(), OperandFault::NoTid),
        Operand::Hook => (hook_named(word).is_some(), OperandFault::NoHook),
        Operand::Map if number(word).is_none() => (false, OperandFault::NoNumber),
        Operand::Map => (
            shape_named(shapes, word).is_some(),
            OperandFault::NoMap(shapes.len()),
        ),
        _ => return None,
    };
    if is_one { None } else { Some(fault) }
}

fn digit_fault(word: &str) -> OperandFault {
    if are_digits(word.as_bytes()) {
        OperandFault::OddDigits
    } else {
        OperandFault::NoDigits
    }
}

/// Why operands don't name a word of a map with this scope, or a value for it.
fn map_fault(shapes: &Shapes, scope: Scope, words: &[&str]) -> Option<(usize, OperandFault)> {
    let [map, entry, word, ..] = words else {
        return None;
    };
    if number(map).is_none() {
        return Some((0, OperandFault::NoNumber));
    }
    let Some(shape) = shape_named(shapes, map) else {
        return Some((0, OperandFault::NoMap(shapes.len())));
    };
    if number_below(u64::from(shape.entries), entry).is_none() {
        return Some((1, OperandFault::NoEntry(shape.entries)));
    }
    if number_below(u64::from(shape.words), word).is_none() {
        return Some((2, OperandFault::NoWord(shape.words)));
    }
    if shape.scope != scope {
        return Some((0, OperandFault::OtherScope(shape.scope)));
    }
    match words {
        [_, _, _, value] if number(value).is_none() => Some((3, OperandFault::NoValue)),
        _ => None,
    }
}

fn shape_named(shapes: &Shapes, map: &str) -> Option<Shape> {
    let map = number_below(0x1_0000_0000, map)?;
    shapes.get(map as u32)
}

/// A word as messages show it: its first characters, control characters escaped.
#[derive(Clone, Copy)]
pub struct Shown<'a>(pub &'a str);

impl fmt::Display for Shown<'_> {
    fn fmt<W: fmt::Write>(&self, f: &mut fmt::Formatter<W>) -> fmt::Result {
        for character in self.0.chars().take(SHOWN) {
            if character.is_control() {
                write!(f, "{}", character.escape_debug())?;
            } else {
                write!(f, "{character}")?;
            }
        }
        if self.0.chars().count() > SHOWN {
            f.write_str("..")?;
        }
        Ok(())
    }
}

impl Operand {
    /// The operand's name in the manual.
    fn name(self) -> &'static str {
        match self {
            Operand::Digits => "HEX",
            Operand::Units => "N",
            Operand::Station => "ADDRESS",
            Operand::Reason => "REASON",
            Operand::Tid => "TID",
            Operand::Hook => "HOOK",
            Operand::File => "FILE",
            Operand::Certificate => "CERTIFICATE",
            Operand::Map => "MAP",
            Operand::Entry => "INDEX",
            Operand::Word => "WORD",
            Operand::Value => "VALUE",
        }
    }
}

/// The names of operands, each after a space.
fn write_operands<W: fmt::Write>(f: &mut fmt::Formatter<W>, operands: &[Operand]) -> fmt::Result {
    for operand in operands {
        write!(f, " {}", operand.name())?;
    }
    Ok(())
}

impl fmt::Display for Form {
    fn fmt<W: fmt::Write>(&self, f: &mut fmt::Formatter<W>) -> fmt::Result {
        write!(f, "`{}` takes", self.keyword)?;
        if self.operands.is_empty() {
            f.write_str(" nothing")?;
        }
        write_operands(f, self.operands)
    }
}

/// A form as one writes it.
#[derive(Clone, Copy)]
struct Usage(Form);

impl fmt::Display for Usage {
    fn fmt<W: fmt::Write>(&self, f: &mut fmt::Formatter<W>) -> fmt::Result {
        f.write_str(self.0.keyword)?;
        write_operands(f, self.0.operands)
    }
}

/// Appends how lines of these forms are written.
fn add_usages(alloc: Global, forms: &[Form], usages: &mut Vec<String>) -> Result<(), AllocError>
    ensures many { OnOk result (vec_len usages.new ≡ vec_len usages.old + length forms.now) }
{
    for form in forms {
        let usage = format!(in alloc; "{}", Usage(*form))?;
        usages.push(usage)?;
    }
    Ok(())
}

/// How each of the 18 kinds of lines of `apd live` is written.
pub fn usages(alloc: Global) -> Result<Vec<String>, AllocError>
    ensures many { IfOk result (λ usages. vec_len usages ≡ 18) }
{
    let mut usages = Vec::new(alloc);
    add_usages(alloc, &FORMS, &mut usages)?;
    add_usages(alloc, &QUESTIONS, &mut usages)?;
    add_usages(alloc, &QUIT, &mut usages)?;
    Ok(usages)
}

/// Writes the fault of an operand.
fn write_operand<W: fmt::Write>(
    f: &mut fmt::Formatter<W>,
    keyword: &str,
    word: &str,
    fault: OperandFault,
) -> fmt::Result {
    let shown = Shown(word);
    match fault {
        OperandFault::NoDigits => write!(f, "{keyword}: `{shown}` isn't hex digits"),
        OperandFault::OddDigits => write!(f, "{keyword}: an odd number of hex digits"),
        OperandFault::NoUnits => write!(f, "{keyword} takes 0 to 4294967295"),
        OperandFault::NoAddress if word.contains(':') => {
            write!(f, "{keyword}: an address has 12 hex digits, without colons")
        }
        OperandFault::NoAddress => write!(f, "{keyword}: an address has 12 hex digits"),
        OperandFault::NoReason => write!(f, "{keyword}: a reason is 0 to 65535"),
        OperandFault::NoTid => write!(f, "{keyword}: a TID is 0 to 7"),
        OperandFault::NoHook => {
            write!(f, "{keyword}: `{shown}` is no hook (assoc, addba or data)")
        }
        _ => write_map_operand(f, keyword, shown, fault),
    }
}

/// Writes the fault of an operand of a command for maps.
fn write_map_operand<W: fmt::Write>(
    f: &mut fmt::Formatter<W>,
    keyword: &str,
    shown: Shown<'_>,
    fault: OperandFault,
) -> fmt::Result {
    match fault {
        OperandFault::NoNumber => write!(f, "{keyword}: `{shown}` is no number of a map"),
        OperandFault::NoMap(0) => write!(f, "map {shown}: the configuration has none"),
        OperandFault::NoMap(count) => write!(f, "map {shown}: the configuration has {count}"),
        OperandFault::NoEntry(count) => {
            let last = count.saturating_sub(1);
            write!(f, "{keyword}: the entries of the map are 0 to {last}")
        }
        OperandFault::NoWord(count) => {
            let last = count.saturating_sub(1);
            write!(f, "{keyword}: the words of an entry are 0 to {last}")
        }
        OperandFault::OtherScope(Scope::Shared) => {
            write!(f, "{keyword}: map {shown} is shared: `read` reads it")
        }
        OperandFault::OtherScope(Scope::Worker) => {
            write!(
                f,
                "{keyword}: each worker has its own map {shown}: `sum` reads it"
            )
        }
        _ => write!(f, "{keyword}: a value is 0 to 18446744073709551615"),
    }
}

impl fmt::Display for LineFault<'_> {
    fn fmt<W: fmt::Write>(&self, f: &mut fmt::Formatter<W>) -> fmt::Result {
        match *self {
            LineFault::Capture => f.write_str("a capture: see `apd frames`"),
            LineFault::ObjectFile => f.write_str("an object file, and no text"),
            LineFault::ByteOrderMark => f.write_str("a byte order mark"),
            LineFault::Tab => f.write_str("a tab"),
            LineFault::CarriageReturn => f.write_str("a carriage return"),
            LineFault::Encoding => f.write_str("not UTF-8"),
            LineFault::TooLong => f.write_str("the line has more than 8192 bytes"),
            LineFault::Other => f.write_str("malformed"),
            LineFault::UnknownWord { word, near: None } => {
                write!(f, "unknown word `{}`", Shown(word))
            }
            LineFault::UnknownWord {
                word,
                near: Some(near),
            } => write!(f, "unknown word `{}` (did you mean `{near}`?)", Shown(word)),
            LineFault::Operands(form) => write!(f, "{form}"),
            LineFault::Operand {
                keyword,
                word,
                fault,
            } => write_operand(f, keyword, word, fault),
        }
    }
}
