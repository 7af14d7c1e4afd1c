//! An input with a clock beside it.

ghost use Rattle.std.specs.Prelude.{◌≡◌, IfSome};

use crate::source::passing::Passing;
use crate::source::reader::Reader;
use crate::source::source::{Arrival, Source};
use apd_files::FileFault;
use std::alloc::{AllocError, Global};
use std::io::Read;
use std::sync::Wait;
use std::thread::Threads;
use std::time::{Clock, Duration, Instant};

/// How long nothing comes before time is told, in milliseconds.
const PATIENCE: u64 = 100;

/// An input that a thread of its own reads when asked, while time passes by a clock.
#[derive(Drop)]
pub struct Timed<'a, R, C> {
    rt: &'a R,
    clock: &'a C,
    reader: Reader,
    /// `None` until the clock could be read.
    passing: Option<Passing>,
}

/// Time that begins now, if the clock can be read.
fn begun<C: Clock>(clock: &C) -> Option<Passing>
    ensures nothing { IfSome result (λ passing. passing.told ≡ 0) }
{
    match Instant::now(clock) {
        Ok(now) => Some(Passing::since(now)),
        Err(_) => None,
    }
}

impl<'a, R, C> Timed<'a, R, C> {
    /// Starts the thread, which waits to be asked. Time passes from now on. Err: there is no memory for a thread.
    pub fn start<I>(
        rt: &'a R,
        alloc: Global,
        clock: &'a C,
        input: I,
    ) -> Result<Timed<'a, R, C>, AllocError>
    where
        R: Threads + Wait + Copy + Send + 'static,
        C: Clock,
        I: Read + Drop + Send + 'static,
    {
        let reader = Reader::start(rt, alloc, input)?;
        Ok(Timed {
            rt,
            clock,
            reader,
            passing: begun(clock),
        })
    }
}

impl<'a, R: Threads + Wait + Clock, C: Clock> Source for Timed<'a, R, C> {
    ghost use Rattle.apd_driver.specs.Clocks.{since_if};

    ghost clock = { λ t. since_if t.passing };

    fn next(&mut self, _alloc: Global) -> Result<Arrival, FileFault> {
        let long = Duration::from_millis(PATIENCE);
        match self.reader.next(self.rt, long)? {
            Some(block) => Ok(Arrival::Bytes(block)),
            None => Ok(Arrival::Nothing),
        }
    }

    fn passed(&mut self) -> u32 {
        match &mut self.passing {
            Some(passing) => match Instant::now(self.clock) {
                Ok(now) => passing.tell(now),
                Err(_) => 0,
            },
            None => {
                self.passing = begun(self.clock);
                0
            }
        }
    }

    fn end(self) {
        let Timed { rt, reader, .. } = self;
        reader.end(rt);
    }
}
