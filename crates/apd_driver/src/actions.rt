//! What the lines of a script ask of the operator.

ghost use Rattle.std.specs.Prelude.{◌≡◌, false, IfOk, OnErr};
ghost use Rattle.apd_driver.specs.Actions.{action_of};
ghost use Rattle.apd_script.specs.Asked.{asked_of};
ghost use Rattle.apd_driver.specs.Following.{IsFrame};
ghost use Rattle.apd_driver.specs.Intervals.{is_wait};

use ap_model::{Event, Octets};
use apd_script::{Command, MapWord};
use bpf_regions::Hook;
use std::alloc::{AllocError, Global};

/// The program of a hook changes.
#[derive(Clone, Copy)]
pub enum Publication<'a> {
    /// The code in a file becomes the hook's program if the verifier accepts it.
    Load {
        hook: Hook,
        path: &'a str,
    },
    /// The code in a file becomes the hook's program if the certificate in another shows it safe.
    Adopt {
        hook: Hook,
        path: &'a str,
        certificate: &'a str,
    },
    /// The hook's program is removed.
    Unload(Hook),
}

/// A word of a map is used.
#[derive(Clone, Copy)]
pub enum WordUse {
    /// A word of a shared map is written.
    Store { word: MapWord, value: u64 },
    /// A word of a shared map is read.
    Read(MapWord),
    /// A word of a worker map is summed over all workers.
    Sum(MapWord),
}

/// What a line asks of the operator.
#[derive(Drop)]
pub(crate) enum Action<'a> {
    /// Give the event to a shard's worker.
    Submit(Event),
    Publish(Publication<'a>),
    UseWord(WordUse),
    /// Wait until everything submitted is handled.
    Wait,
}

/// What a command asks of the operator. Err: an allocation for a frame's bytes failed.
pub(crate) fn action_of<'a>(alloc: Global, command: &Command<'a>) -> Result<Action<'a>, AllocError>
    ensures is { IfOk result (λ action. action ≡ action_of command.now) }
    ensures frame { OnErr result (IsFrame (asked_of command.now)) }
    ensures goes_on { OnErr result (is_wait command.now ≡ false) }
{
    match *command {
        Command::Frame(text) => {
            let bytes = text.bytes(alloc)?;
            Ok(Action::Submit(Event::Frame(Octets::new(bytes))))
        }
        Command::Tick(units) => Ok(Action::Submit(Event::Tick(units))),
        Command::Kick { station, reason } => { Ok(Action::Submit(Event::Kick { station, reason })) }
        Command::Close { station, tid } => { Ok(Action::Submit(Event::Close { station, tid })) }
        Command::Load { hook, path } => { Ok(Action::Publish(Publication::Load { hook, path })) }
        Command::Adopt {
            hook,
            path,
            certificate,
        } => {
            Ok(Action::Publish(Publication::Adopt {
                hook,
                path,
                certificate,
            }))
        }
        Command::Unload(hook) => Ok(Action::Publish(Publication::Unload(hook))),
        Command::Store { word, value } => { Ok(Action::UseWord(WordUse::Store { word, value })) }
        Command::Read(word) => Ok(Action::UseWord(WordUse::Read(word))),
        Command::Sum(word) => Ok(Action::UseWord(WordUse::Sum(word))),
        Command::Wait => Ok(Action::Wait),
    }
}
