//! The words of a row.

ghost use Rattle.std.specs.Prelude.{Some};
ghost use Rattle.apd_driver.specs.Answers.{station_words, agreement_words, program_words, shape_words, scope_name, granted_name, denied_name};

use crate::answers::answer::{AgreementRow, ProgramRow, StationRow};
use bpf_regions::{Hook, Scope, Shape};
use std::fmt;

impl fmt::Display for StationRow {
    ghost output = { λ row. Some (station_words row) };

    fn fmt<W: fmt::Write>(&self, f: &mut fmt::Formatter<W>) -> fmt::Result {
        match self.aid {
            None => write!(f, "station {} authenticated", self.station),
            Some(aid) => write!(f, "station {} associated {aid}", self.station),
        }
    }
}

impl fmt::Display for AgreementRow {
    ghost output = { λ row. Some (agreement_words row) };

    fn fmt<W: fmt::Write>(&self, f: &mut fmt::Formatter<W>) -> fmt::Result {
        write!(
            f,
            "agreement {} {} start {} size {} held {} timeout {}",
            self.station, self.tid, self.start, self.size, self.held, self.timeout
        )
    }
}

impl fmt::Display for ProgramRow {
    ghost output = { λ row. Some (program_words row) };

    fn fmt<W: fmt::Write>(&self, f: &mut fmt::Formatter<W>) -> fmt::Result {
        write!(
            f,
            "program {} budget {} runs {} most {} steps {} {} {} {} {}",
            self.hook,
            self.budget,
            self.runs,
            self.most,
            self.steps,
            GrantedName(self.hook),
            self.granted,
            DeniedName(self.hook),
            self.denied
        )
    }
}

/// What a verdict of a hook's program does that grants what was asked.
#[derive(Clone, Copy)]
pub(crate) struct GrantedName(pub Hook);

impl fmt::Display for GrantedName {
    ghost output = { λ name. Some (granted_name name.0) };

    fn fmt<W: fmt::Write>(&self, f: &mut fmt::Formatter<W>) -> fmt::Result {
        f.write_str(match self.0 {
            Hook::Association => "admit",
            Hook::Addba => "size",
            Hook::Data => "pass",
        })
    }
}

/// What a verdict of a hook's program does that denies what was asked.
#[derive(Clone, Copy)]
pub(crate) struct DeniedName(pub Hook);

impl fmt::Display for DeniedName {
    ghost output = { λ name. Some (denied_name name.0) };

    fn fmt<W: fmt::Write>(&self, f: &mut fmt::Formatter<W>) -> fmt::Result {
        f.write_str(match self.0 {
            Hook::Association => "refuse",
            Hook::Addba => "decline",
            Hook::Data => "drop",
        })
    }
}

/// A map's scope, as a configuration names it.
#[derive(Clone, Copy)]
pub(crate) struct ScopeName(pub Scope);

impl fmt::Display for ScopeName {
    ghost output = { λ name. Some (scope_name name.0) };

    fn fmt<W: fmt::Write>(&self, f: &mut fmt::Formatter<W>) -> fmt::Result {
        f.write_str(match self.0 {
            Scope::Shared => "shared",
            Scope::Worker => "worker",
        })
    }
}

/// A map's shape: its entries, the words of each, and the bytes of a word.
#[derive(Clone, Copy)]
pub(crate) struct ShapeWords(pub Shape);

impl fmt::Display for ShapeWords {
    ghost output = { λ words. Some (shape_words words.0) };

    fn fmt<W: fmt::Write>(&self, f: &mut fmt::Formatter<W>) -> fmt::Result {
        let Shape {
            entries,
            words,
            width,
            scope,
        } = self.0;
        write!(
            f,
            "{} {entries} entries {words} words width {}",
            ScopeName(scope),
            width.bytes()
        )
    }
}
