//! Passing up what a window releases.

ghost use Rattle.std.specs.Prelude.{◌≡◌, ℕ, MatchOption, ◌+◌, ◌<◌, ◌≤◌, ◌++◌, All, vec_len, vec_capacity, List};
ghost use Rattle.arrayvec.specs.ArrayVec.{array_vec_len};
ghost use Rattle.blockack.specs.Reading.{numbers_held};
ghost use Rattle.ap_model.specs.Agreements.{ups, up_held};
ghost use Rattle.ap_core.specs.Handles.{PassesAll, held_replaced};

use ap_agreements::{Entry, Released};
use ap_model::{Held, Out};
use blockack::Sink;
use mac_frame::{Address, SequenceNumber, Tid};

fn push_held(station: Address, tid: Tid, number: u16, held: Held, outs: &mut Vec<Out>)
    requires number { number < 4096 }
    requires room { vec_len outs.old < vec_capacity outs.old }
    ensures outs { outs.new.items ≡ outs.old.items ++ up_held station tid number held }
    ensures len { vec_len outs.new ≤ vec_len outs.old + 1 }
    ensures capacity { vec_capacity outs.new ≡ vec_capacity outs.old }
{
    let number = match SequenceNumber::new(number) {
        Some(number) => number,
        None => unreachable!(),
    };
    match held.up(station, tid, number) {
        Some(up) => outs.push_reserved(Out::Up(up)),
        None => {}
    }
}

/// A list of outputs, to which a station's window for a TID passes frames up.
#[derive(Drop)]
pub(crate) struct Ups {
    pub(crate) station: Address,
    pub(crate) tid: Tid,
    pub(crate) outs: Vec<Out>,
}

impl Sink<Held> for Ups {
    ghost use Rattle.std.specs.Prelude.{◌≡◌, ◌-◌, ◌++◌, vec_len, vec_capacity};
    ghost use Rattle.ap_model.specs.Agreements.{up_held};

    ghost room = { λ u. vec_capacity u.outs - vec_len u.outs };

    ghost receives = { λ u number held v. (v.station ≡ u.station) × (v.tid ≡ u.tid) × (v.outs.items ≡ u.outs.items ++ up_held u.station u.tid number held) };

    fn receive(&mut self, number: u16, frame: Held) {
        push_held(self.station, self.tid, number, frame, &mut self.outs);
    }
}

/// Passes up what a window released.
pub(crate) fn pass_up(station: Address, tid: Tid, passed: Released, outs: &mut Vec<Out>)
    requires numbers { All (λ p. p.0 < 4096) passed.items }
    requires room { vec_len outs.old + array_vec_len passed ≤ vec_capacity outs.old }
    ensures outs { outs.new.items ≡ outs.old.items ++ ups station tid passed.items }
    ensures len { vec_len outs.new ≤ vec_len outs.old + array_vec_len passed }
    ensures capacity { vec_capacity outs.new ≡ vec_capacity outs.old }
{
    let _count = passed.len();
    for (number, held) in passed {
        push_held(station, tid, number, held, outs);
    }
}

/// Passes up all that an ending agreement held.
#[inline(never)]
pub(crate) fn pass_all(entry: Entry, outs: &mut Vec<Out>)
    requires { vec_len outs.old + numbers_held entry.using.window ≤ vec_capacity outs.old }
    ensures passes { PassesAll entry outs.old.items outs.new.items }
    ensures len { vec_len outs.new ≤ vec_len outs.old + numbers_held entry.using.window }
    ensures capacity { vec_capacity outs.new ≡ vec_capacity outs.old }
{
    let station = entry.station();
    let tid = entry.tid();
    let mut passed = Released::new();
    entry.close(&mut passed);
    pass_up(station, tid, passed, outs);
}

/// The same for a replaced agreement, if there is one.
pub(crate) fn pass_replaced(replaced: Option<Entry>, outs: &mut Vec<Out>)
    requires { vec_len outs.old + held_replaced replaced ≤ vec_capacity outs.old }
    ensures passes { MatchOption replaced (outs.new.items ≡ outs.old.items)
        (λ e. PassesAll e outs.old.items outs.new.items) }
    ensures len { vec_len outs.new ≤ vec_len outs.old + held_replaced replaced }
    ensures capacity { vec_capacity outs.new ≡ vec_capacity outs.old }
{
    match replaced {
        Some(entry) => pass_all(entry, outs),
        None => {}
    }
}
