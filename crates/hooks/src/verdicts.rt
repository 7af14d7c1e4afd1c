//! What the number that a program leaves in R0 means to the link. These tables are this access point's own.

ghost use Rattle.std.specs.Prelude.{◌≡◌, ◌≤◌, IfSome, Some};
ghost use Rattle.bpf_regions.specs.declared.hooks.Hook.{Hook};
ghost use Rattle.hooks.specs.Verdicts.{association_status, agreement_size, data_verdict, no_program};

use bpf_regions::Hook;
use mac_types::{BufferSize, Status};

/// The most numbers that the window of an agreement may have.
pub const LARGEST_WINDOW: u8 = 64;

/// What happens to a data frame.
#[derive(Clone, Copy, Debug, PartialEq, Eq)]
pub enum DataVerdict {
    /// It is passed up with this mark.
    Pass(u8),
    /// It isn't passed up.
    Discard,
}

/// The status that answers a (re)association request: 0 admits; 1, 10, 12, 17 and 37 refuse with
/// that status, any other number with 1.
pub fn assoc_verdict(r0: u64) -> Status
    ensures { result ≡ association_status r0 }
{
    match r0 {
        0 => Status::SUCCESS,
        10 => Status::REFUSED_CAPABILITIES_MISMATCH,
        12 => Status::DENIED_OTHER_REASON,
        17 => Status::DENIED_NO_MORE_STAS,
        37 => Status::REQUEST_DECLINED,
        _ => Status::REFUSED_REASON_UNSPECIFIED,
    }
}

/// The window size granted to an ADDBA request, 1 to 64: the least of R0, the size asked for (0 counts as 64), and 64.
/// None if R0 is 0: the request is declined.
pub fn addba_verdict(r0: u64, asked: BufferSize) -> Option<u8>
    ensures is { result ≡ agreement_size r0 asked }
    ensures some { IfSome result (λ size. 1 ≤ size) }
    ensures fits { IfSome result (λ size. size ≤ 64) }
{
    if r0 == 0 {
        return None;
    }
    let wanted = match asked.number() {
        0 => 64,
        number => u64::from(number),
    };
    let size = r0.min(wanted).min(u64::from(LARGEST_WINDOW));
    Some(size as u8)
}

/// What happens to a data frame, by the low two bits of R0: 0 passes it with mark 0, 2 passes it with
/// bits 8 to 15 as its mark, 1 and 3 discard it.
pub fn data_verdict(r0: u64) -> DataVerdict
    ensures { result ≡ data_verdict r0 }
{
    match r0 % 4 {
        0 => DataVerdict::Pass(0),
        2 => DataVerdict::Pass((r0 / 256 % 256) as u8),
        _ => DataVerdict::Discard,
    }
}

/// What counts as R0 if a hook has no program: it admits, grants what is asked, and passes with mark 0.
pub fn no_program(hook: Hook) -> u64
    ensures { result ≡ no_program hook }
{
    match hook {
        Hook::Association => 0,
        Hook::Addba => 64,
        Hook::Data => 0,
    }
}
