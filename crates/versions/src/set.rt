//! The set of the hooks' programs.

ghost use Rattle.std.specs.Prelude.{◌≡◌, [], IfOk, IfSome};
ghost use Rattle.std.specs.Option.{option_copied};
ghost use Rattle.versions.specs.Numbers.{next_at, number_at, numbers_of};
ghost use Rattle.versions.specs.Sets.{IsFor, after, kept, load, program_at, set_of};
ghost use Rattle.versions.specs.Owned.{programs_of};

use crate::list::Known;
use crate::numbers::LoadNumbers;
use bpf_machine::Accepted;
use bpf_regions::Hook;
use left_right::Absorb;
use std::alloc::AllocError;
use std::marker::Model;
use std::sync::Arc;

/// A set of programs: for each hook the last one loaded, or none. Contracts see the loads that result in it.
#[derive(Drop)]
pub struct ProgramSet {
    association: Option<Arc<Accepted>>,
    addba: Option<Arc<Accepted>>,
    frames: Option<Arc<Accepted>>,
    numbers: LoadNumbers,
    known: Known,
}

impl Model for ProgramSet {
    ghost use Rattle.std.specs.Prelude.{◌≡◌};
    ghost use Rattle.versions.specs.Lists.{Beginning};
    ghost use Rattle.versions.specs.Numbers.{numbers_of};
    ghost use Rattle.versions.specs.Sets.{kept_by_hook, set_of};

    ghost Value = { Beginning };

    ghost view = { λ s. s.known };

    ghost invariant = { λ s. (kept_by_hook s.association s.addba s.frames ≡ set_of s.known.loads)
        × (s.numbers ≡ numbers_of s.known.loads) };
}

/// The programs of a set to be made, and the numbers of their loads.
#[derive(Drop)]
pub struct Owners {
    pub association: Option<Arc<Accepted>>,
    pub addba: Option<Arc<Accepted>>,
    pub frames: Option<Arc<Accepted>>,
    pub numbers: LoadNumbers,
}

/// One more owner of a program.
fn another(program: &Option<Arc<Accepted>>) -> Result<Option<Arc<Accepted>>, AllocError>
    ensures { IfOk result (λ p. kept p ≡ kept program.now) }
{
    match program {
        None => Ok(None),
        Some(shared) => Ok(Some(Arc::try_clone(shared)?)),
    }
}

impl ProgramSet {
    /// The set before any load.
    pub fn empty(known: Known) -> ProgramSet
        requires { known.loads ≡ [] }
        ensures { result ≡ known }
    {
        ProgramSet {
            association: None,
            addba: None,
            frames: None,
            numbers: LoadNumbers::none(),
            known,
        }
    }

    /// The set that those loads result in.
    pub fn of(owners: Owners, known: Known) -> ProgramSet
        requires programs { programs_of owners ≡ set_of known.loads }
        requires numbers { owners.numbers ≡ numbers_of known.loads }
        ensures { result ≡ known }
    {
        let Owners {
            association,
            addba,
            frames,
            numbers,
        } = owners;
        ProgramSet {
            association,
            addba,
            frames,
            numbers,
            known,
        }
    }

    /// A copy, which shares the programs.
    pub fn again(&self) -> Result<ProgramSet, AllocError>
        ensures { IfOk result (λ s. s ≡ self.now) }
    {
        Ok(ProgramSet {
            association: another(&self.association)?,
            addba: another(&self.addba)?,
            frames: another(&self.frames)?,
            numbers: self.numbers,
            known: self.known.again(),
        })
    }

    /// The programs after one more load.
    pub fn loaded(&self, hook: Hook, program: &Option<Arc<Accepted>>) -> Result<Owners, AllocError>
        ensures programs { IfOk result (λ o. programs_of o ≡ after (set_of self.now.loads)
            (load hook (kept program.now))) }
        ensures numbers { IfOk result
            (λ o. o.numbers ≡ next_at hook (numbers_of self.now.loads)) }
    {
        let new = another(program)?;
        let mut association = another(&self.association)?;
        let mut addba = another(&self.addba)?;
        let mut frames = another(&self.frames)?;
        match hook {
            Hook::Association => association = new,
            Hook::Addba => addba = new,
            Hook::Data => frames = new,
        }
        Ok(Owners {
            association,
            addba,
            frames,
            numbers: self.numbers.next(hook),
        })
    }

    /// The loads that result in the set.
    pub fn known(&self) -> &Known
        ensures { result.now ≡ self.now }
    {
        &self.known
    }

    /// The number of a hook's last load: how many it had, removals too, mod 2^64.
    pub fn load_number(&self, hook: Hook) -> u64
        ensures is { result ≡ number_at hook (numbers_of self.now.loads) }
    {
        self.numbers.at(hook)
    }

    /// A hook's program, which was accepted for that hook and for the map shapes in use; None if it has none.
    pub fn program(&self, hook: Hook) -> Option<&Accepted>
        ensures is { option_copied result ≡ program_at hook (set_of self.now.loads) }
        ensures own { IfSome result (λ p. IsFor self.now.shapes hook p.now) }
    {
        self.known.fitting();
        let program = match hook {
            Hook::Association => &self.association,
            Hook::Addba => &self.addba,
            Hook::Data => &self.frames,
        };
        match program {
            None => None,
            Some(shared) => Some(&**shared),
        }
    }
}

/// An operation is the whole next set.
impl Absorb<ProgramSet> for ProgramSet {
    type State = Known;

    ghost state = { λ s. s };

    ghost applied = { λ _ next. next };

    fn absorb_first(
        &mut self,
        operation: &ProgramSet,
        _other: &ProgramSet,
    ) -> Result<(), AllocError> {
        *self = operation.again()?;
        Ok(())
    }

    fn absorb_second(
        &mut self,
        operation: ProgramSet,
        _other: &ProgramSet,
    ) -> Result<(), ProgramSet> {
        *self = operation;
        Ok(())
    }
}
