//! Loading and unloading programs.

ghost use Rattle.std.specs.Prelude.{◌≡◌, length, IfOk, None, OnOk, OnErr};
ghost use Rattle.ap_live.specs.Tokens.{IsWorker};
ghost use Rattle.versions.specs.Lists.{Begins, with_load};
ghost use Rattle.versions.specs.Sets.{load};
ghost use Rattle.apd_run.specs.Loading.{PutsInForce, LoadsProgram, LoadsCode, LoadsFile, refused_told};

use ap_books::Ledgers;
use ap_live::{LiveAp, WorkerToken};
use ap_locked::Journals;
use apd_driver::{Told, Unread};
use apd_files::{CodeFault, Files, read_code};
use bpf_decode::{DecodeFault, Program, decode};
use bpf_machine::Accepted;
use bpf_regions::{Hook, Shapes};
use bpf_rules::Fault;
use bpf_verifier::{Limits, Refusal, verify_limited};
use std::alloc::{AllocError, Global};
use std::marker::Model;
use std::sync::{Arc, Wait};
use versions::{News, PublishFault, Publisher};

/// Puts programs in force for the maps of a run. Contracts see the list of published programs. It is not `Drop`: end it
/// by `close`.
pub struct Loads {
    pub(crate) alloc: Global,
    pub(crate) publisher: Publisher,
    shapes: Shapes,
}

impl Model for Loads {
    ghost use Rattle.std.specs.Prelude.{◌≡◌};
    ghost use Rattle.versions.specs.Lists.{Beginning};

    ghost Value = { Beginning };

    ghost view = { λ l. l.publisher };

    ghost invariant = { λ l. l.shapes ≡ l.publisher.shapes };
}

impl Loads {
    /// Loads through a publisher, with its maps' shapes.
    pub fn new(alloc: Global, publisher: Publisher, shapes: Shapes) -> Loads
        requires { shapes ≡ publisher.shapes }
        ensures { result ≡ publisher }
    {
        Loads {
            alloc,
            publisher,
            shapes,
        }
    }

    /// How many loads were published.
    pub fn count(&self) -> u64
        ensures is { result ≡ length self.now.loads }
    {
        self.publisher.count()
    }

    /// Brings a worker and the published loads together: what it has seen of them, or was told of, is a prefix of them.
    /// Does nothing at run time.
    pub fn meet<B: Ledgers + Journals>(&mut self, ap: &LiveAp<B>, worker: &WorkerToken<B>)
        requires own { IsWorker ap.now worker.now }
        requires list { self.old.list ≡ ap.now.list.list }
        ensures same { self.new ≡ self.old }
        ensures seen { Begins worker.now.seen self.old }
    {
        ap.meet_publisher(worker, &mut self.publisher);
    }

    /// The loads so far, for one reader to learn.
    pub fn tell(&mut self) -> News
        ensures same { self.new ≡ self.old }
        ensures told { result ≡ self.old }
    {
        self.publisher.tell()
    }

    /// Waits for the readers, and ends. A reader that enters later waits forever.
    pub fn close<R: Wait>(self, rt: &R) {
        let Loads {
            alloc: _,
            publisher,
            shapes: _,
        } = self;
        publisher.close(rt);
    }

    /// Reads code from a file of hex digits, and puts the program in force for a hook if the verifier admits it within
    /// limits of states and of work. Returns `Unreadable` if the file can't be read or doesn't hold pairs of hex
    /// digits, the code's fault, the verifier's refusal, `Memory`, or the program's budget. All but the last leave the
    /// programs in force unchanged.
    pub fn load<R: Wait, F: Files>(
        &mut self,
        rt: &R,
        files: &mut F,
        hook: Hook,
        path: &str,
        limits: Limits,
    ) -> Told
        ensures loads { LoadsFile (F.held files.old) limits hook path.now self.old self.new result }
        ensures same { F.held files.new ≡ F.held files.old }
    {
        match read_code(self.alloc, path, files) {
            Ok(code) => {
                let told = self.load_code(rt, hook, code.as_slice(), limits);
                return told;
            }
            Err(fault) => match fault {
                CodeFault::NoMemory => return Told::Memory,
                _ => return Told::Unreadable(Unread::Code(fault)),
            },
        }
    }

    /// Removes the program of a hook. Err: an allocation failed, and the programs in force are unchanged.
    pub fn unload<R: Wait>(&mut self, rt: &R, hook: Hook) -> Result<(), AllocError>
        ensures unloaded { OnOk result (self.new ≡ with_load self.old (load hook None)) }
        ensures refused { OnErr result (self.new ≡ self.old) }
    {
        match self.publisher.publish(rt, hook, None) {
            Ok(()) => Ok(()),
            Err(_) => Err(AllocError),
        }
    }

    /// A copy of the maps' shapes.
    pub(crate) fn shapes(&self) -> Result<Shapes, AllocError>
        ensures is { IfOk result (λ shapes. shapes ≡ self.now.shapes) }
    {
        self.shapes.clone()
    }

    fn load_code<R: Wait>(&mut self, rt: &R, hook: Hook, code: &[u8], limits: Limits) -> Told
        ensures { LoadsCode limits hook code.now self.old self.new result }
    {
        let Ok(shapes) = self.shapes() else {
            return Told::Memory;
        };
        match decode(self.alloc, code, shapes) {
            Ok(program) => {
                let told = self.load_program(rt, hook, program, limits);
                return told;
            }
            Err(fault) => match fault {
                DecodeFault::NoMemory => return Told::Memory,
                _ => return Told::Fault(fault),
            },
        }
    }

    fn load_program<R: Wait>(
        &mut self,
        rt: &R,
        hook: Hook,
        program: Program,
        limits: Limits,
    ) -> Told
        requires { program.shapes ≡ self.old.shapes }
        ensures { LoadsProgram limits hook program self.old self.new result }
    {
        match verify_limited(self.alloc, program, hook, limits) {
            Ok(accepted) => {
                let told = self.put_in_force(rt, hook, accepted);
                return told;
            }
            Err(refusal) => match refusal.fault {
                Fault::NoMemory => return Told::Memory,
                _ => return refused_told(refusal),
            },
        }
    }

    fn put_in_force<R: Wait>(&mut self, rt: &R, hook: Hook, accepted: Accepted) -> Told
        requires hook_is { accepted.hook ≡ hook }
        requires shapes_are { accepted.code.shapes ≡ self.old.shapes }
        ensures { PutsInForce hook accepted self.old self.new result }
    {
        let budget = accepted.budget();
        let slots = accepted.program().len();
        let Ok(shared) = Arc::new(self.alloc, accepted) else {
            return Told::Memory;
        };
        match self.publisher.publish(rt, hook, Some(shared)) {
            Ok(()) => return Told::Loaded { budget, slots },
            Err(PublishFault::NoMemory) => return Told::Memory,
            Err(PublishFault::OtherShapes) => unreachable!(),
        }
    }
}

/// The report on a refused program.
fn refused_told(refusal: Refusal) -> Told
    ensures { result ≡ refused_told refusal }
{
    Told::Refused {
        fault: refusal.number(),
        slot: refusal.pc,
    }
}
