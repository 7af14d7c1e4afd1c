//! Counts the results of inputs.

ghost use Rattle.std.specs.Prelude.{◌≡◌, ◌+◌, ◌-◌, ◌<◌, ◌^◌};

use std::fmt;

/// The result of testing an input.
#[derive(Clone, Copy)]
pub enum Judged {
    /// It was accepted, and `runs` runs of it agreed.
    Admitted { runs: u64 },
    /// It was refused, by a known refusal.
    Refused,
    /// It was put aside: its runs or its verification may be long.
    Long,
    /// Something is wrong, as this says.
    Wrong(&'static str),
}

/// How many inputs were accepted, refused and put aside, and how many runs agreed.
#[derive(Clone, Copy)]
pub struct Tally {
    pub admitted: u64,
    pub refused: u64,
    pub long: u64,
    pub runs: u64,
}

impl Tally {
    pub const NONE: Tally = Tally {
        admitted: 0,
        refused: 0,
        long: 0,
        runs: 0,
    };

    /// Counts an input. A wrong one counts as refused.
    pub fn count(&mut self, judged: Judged)
        requires { self.old.admitted + self.old.refused + self.old.long < 2 ^ 64 - 1 }
        ensures { self.new.admitted + self.new.refused + self.new.long
            ≡ self.old.admitted + self.old.refused + self.old.long + 1 }
    {
        match judged {
            Judged::Admitted { runs } => {
                self.admitted += 1;
                self.runs = self.runs.wrapping_add(runs);
            }
            Judged::Refused => self.refused += 1,
            Judged::Long => self.long += 1,
            Judged::Wrong(_) => self.refused += 1,
        }
    }
}

impl fmt::Display for Tally {
    fn fmt<W: fmt::Write>(&self, f: &mut fmt::Formatter<W>) -> fmt::Result {
        write!(f, "{} admitted, {} refused", self.admitted, self.refused)?;
        if self.long > 0 {
            write!(f, ", {} put aside", self.long)?;
        }
        if self.runs > 0 {
            write!(f, ", {} runs", self.runs)?;
        }
        Ok(())
    }
}
