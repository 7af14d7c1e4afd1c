//! Where the lines of a run come from.

ghost use Rattle.std.specs.Prelude.{◌≡◌, ℕ, List, Option, length, vec_len, IfOk, OnOk, OnErr};
ghost use Rattle.apd_script.specs.Asked.{Asked};
ghost use Rattle.apd_driver.specs.Captures.{KeepsRun};
ghost use Rattle.apd_driver.specs.Shows.{Breaks, ShowsScript};

use crate::PrintFault;
use crate::console::Console;
use crate::crew::Serving;
use crate::found::Found;
use crate::interval::intervals;
use crate::operating::Operating;
use crate::setting::{Setting, Staff};
use apd_script::Numbered;
use std::sync::Wait;

/// The lines of a run, whether they are known or still to come.
pub trait Lines {
    // What the lines ask for, each with its number, if they are known.
    ghost script: { Self → Option (List (ℕ × Asked)) };

    /// Runs all intervals of the lines, or those up to a line at fault if the run is strict, and returns what the printed
    /// lines say.
    fn run<W: Serving + Drop, O: Operating<W> + Drop, R: Wait, P: Console>(
        self,
        setting: &Setting<'_, W, R>,
        staff: &mut Staff<W, O>,
        writer: &mut P,
    ) -> Result<Found, PrintFault>
        requires home { vec_len staff.old.workers ≡ length setting.now.desks.now }
        ensures home { OnOk result (vec_len staff.new.workers ≡ length setting.now.desks.now) }
        ensures workers { OnOk result
            ((O.crew staff.new.operator).workers ≡ (O.crew staff.old.operator).workers) }
        ensures shows { IfOk result (λ found. ShowsScript setting.now.manner (script self)
            (P.contents writer.old) (P.contents writer.new)
            (O.crew staff.old.operator) (O.crew staff.new.operator)
            found.memory found.refused) }
        ensures breaks { OnErr result (Breaks setting.now.manner (script self)
            (P.contents writer.old) (P.contents writer.new) (O.crew staff.old.operator)) }
        ensures keeps { OnOk result (KeepsRun setting.now.manner.form (script self)
            (P.contents writer.old) (P.contents writer.new)
            (P.recorded writer.old) (P.recorded writer.new)) };
}

/// The commands of a script.
#[derive(Clone, Copy)]
pub struct Script<'a> {
    pub commands: &'a [Numbered<'a>],
}

impl Lines for Script<'_> {
    ghost use Rattle.std.specs.Prelude.{Some};
    ghost use Rattle.apd_script.specs.Asked.{commands_of};

    ghost script = { λ s. Some (commands_of s.commands.now) };

    fn run<W: Serving + Drop, O: Operating<W> + Drop, R: Wait, P: Console>(
        self,
        setting: &Setting<'_, W, R>,
        staff: &mut Staff<W, O>,
        writer: &mut P,
    ) -> Result<Found, PrintFault> {
        intervals(setting, staff, self.commands, writer)
    }
}
