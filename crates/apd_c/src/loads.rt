//! The programs of access points.

ghost use Rattle.std.specs.Prelude.{◌≡◌, ◌≢◌, Some, None, IfSome, OnOk, IfErr, OnErr};
ghost use Rattle.std.specs.Option.{option_map};
ghost use Rattle.bpf_regions.specs.declared.hooks.Hook.{Hook as AHook};
ghost use Rattle.bpf_regions.specs.Hooks.{number_of};
ghost use Rattle.bpf_machine.specs.Verified.{Verified};
ghost use Rattle.apd_c.specs.declared.handle.Content.TheVariants.{Code as CodeContent};
ghost use Rattle.apd_c.specs.Held.{held};
ghost use Rattle.apd_c.specs.Answers.{IsDone, UnlessSome, number_with};
ghost use Rattle.apd_c.specs.Code.{code_of};
ghost use Rattle.apd_c.specs.Link.{HasPut, HasUnloaded, IsLoadNumber, IsPutAtNumber, IsPutNumber, IsUnloadNumber, Puts, link_of};

use crate::answer::{OTHER_HOOK, OTHER_MAPS, OTHER_VALUE, OUT_OF_LIMITS};
use crate::code::hook_of;
use crate::handle::{Content, Handle};
use crate::runs::are_alike;
use ap_single::AccessPoint;
use bpf_machine::Accepted;
use bpf_regions::Hook;
use std::alloc::Global;

/// Takes a program and its box out of the handle that holds them, which is then empty.
fn take_code(alloc: Global, handle: &mut Handle) -> Option<(Box<Content>, Box<Accepted>)>
    ensures some { IfSome result (λ t. held handle.old ≡ Some (CodeContent t.1)) }
    ensures emptied { IfSome result (λ t. held handle.new ≡ None) }
    ensures none { result ≡ None → held handle.new ≡ held handle.old }
    ensures code { option_map (λ t. t.1.value) result ≡ code_of (held handle.old) }
{
    match handle.take(alloc) {
        None => None,
        Some(mut boxed) => match Box::replace(&mut boxed, Content::Nothing) {
            Content::Code(accepted) => Some((boxed, accepted)),
            other => {
                drop(Box::replace(&mut boxed, other));
                handle.put(boxed);
                None
            }
        },
    }
}

/// Loads the program, if it is for that hook and for the access point's maps.
fn put(
    access_point: &mut AccessPoint,
    hook: Hook,
    accepted: Box<Accepted>,
) -> Result<(), (u32, Box<Accepted>)>
    ensures ok { OnOk result (Puts hook accepted.value access_point.old access_point.new) }
    ensures err { OnErr result (access_point.new ≡ access_point.old) }
    ensures back { IfErr result (λ e. (e.0 ≢ 0) × (e.1 ≡ accepted)) }
    ensures number { IsPutNumber (number_of hook) accepted.value access_point.old (number_with result) }
{
    if accepted.hook() != hook {
        return Err((OTHER_HOOK, accepted));
    }
    if !are_alike(
        access_point.shapes().as_slice(),
        accepted.program().shapes().as_slice(),
    ) {
        return Err((OTHER_MAPS, accepted));
    }
    access_point.put(hook, Some(Box::into_inner(accepted)));
    Ok(())
}

/// The same if a content is an access point.
fn put_in(
    content: &mut Content,
    hook: Hook,
    accepted: Box<Accepted>,
) -> Result<(), (u32, Box<Accepted>)>
    ensures ok { OnOk result (HasPut hook accepted.value (Some content.old) (Some content.new)) }
    ensures err { OnErr result (content.new ≡ content.old) }
    ensures back { IfErr result (λ e. (e.0 ≢ 0) × (e.1 ≡ accepted)) }
    ensures number { UnlessSome (link_of (Some content.old)) 91
        (IsPutNumber (number_of hook) accepted.value)
        (number_with result) }
{
    match content {
        Content::Link(access_point) => put(access_point, hook, accepted),
        _ => Err((OTHER_VALUE, accepted)),
    }
}

/// The same if a handle holds an access point.
fn put_at(link: &mut Handle, hook: u32, accepted: Box<Accepted>) -> Result<(), (u32, Box<Accepted>)>
    ensures ok { OnOk result
        ((h : AHook) × (hook ≡ number_of h) × HasPut h accepted.value (held link.old) (held link.new)) }
    ensures err { OnErr result (held link.new ≡ held link.old) }
    ensures back { IfErr result (λ e. (e.0 ≢ 0) × (e.1 ≡ accepted)) }
    ensures number { IsPutAtNumber hook accepted.value (held link.old) (number_with result) }
{
    let Some(hook) = hook_of(hook) else {
        return Err((OUT_OF_LIMITS, accepted));
    };
    match link.lent() {
        None => Err((OTHER_VALUE, accepted)),
        Some(content) => put_in(content, hook, accepted),
    }
}

/// Moves a program from a handle to a hook (1 association, 2 ADDBA, 3 data) of an access point, in place of the hook's
/// old one.
///
/// 0: the access point has it, and the program's handle is empty. 90: there is no such hook. 91: a handle doesn't hold
/// a program or an access point. 93: the program is for maps of other shapes. 95: it was verified for another hook. All
/// but 0 leave both handles unchanged. It allocates nothing.
#[unsafe(no_mangle)]
pub extern "C" fn apd_c_link_load(
    alloc: Global,
    link: &mut Handle,
    hook: u32,
    code: &mut Handle,
) -> u32
    ensures loaded { result ≡ 0 → (h : AHook) × (hook ≡ number_of h)
        × (a : Verified) × (code_of (held code.old) ≡ Some a) × HasPut h a (held link.old) (held link.new) }
    ensures emptied { result ≡ 0 → held code.new ≡ None }
    ensures link { result ≢ 0 → held link.new ≡ held link.old }
    ensures code { result ≢ 0 → held code.new ≡ held code.old }
    ensures number { IsLoadNumber hook (held code.old) (held link.old) result }
{
    match take_code(alloc, code) {
        None => OTHER_VALUE,
        Some((boxed, accepted)) => match put_at(link, hook, accepted) {
            Ok(()) => 0,
            Err((number, accepted)) => {
                let mut boxed = boxed;
                drop(Box::replace(&mut boxed, Content::Code(accepted)));
                code.put(boxed);
                number
            }
        },
    }
}

/// Removes the program of a hook, if a content is an access point.
fn unload_in(content: &mut Content, hook: Hook) -> u32
    ensures unloaded { result ≡ 0 → HasUnloaded hook (Some content.old) (Some content.new) }
    ensures kept { result ≢ 0 → content.new ≡ content.old }
    ensures number { UnlessSome (link_of (Some content.old)) 91 (λ a. IsDone) result }
{
    match content {
        Content::Link(access_point) => {
            access_point.put(hook, None);
            0
        }
        _ => OTHER_VALUE,
    }
}

/// Removes and frees the program of a hook (1 association, 2 ADDBA, 3 data) of an access point. Without programs,
/// associations are admitted, agreements get what they request, and data passes with mark 0.
///
/// 0: the hook has no program. 90: there is no such hook. 91: the handle holds no access point. All but 0 leave the
/// handle unchanged. It allocates nothing.
#[unsafe(no_mangle)]
pub extern "C" fn apd_c_link_unload(link: &mut Handle, hook: u32) -> u32
    ensures unloaded { result ≡ 0 →
        (h : AHook) × (hook ≡ number_of h) × HasUnloaded h (held link.old) (held link.new) }
    ensures kept { result ≢ 0 → held link.new ≡ held link.old }
    ensures number { IsUnloadNumber hook (held link.old) result }
{
    let Some(hook) = hook_of(hook) else {
        return OUT_OF_LIMITS;
    };
    match link.lent() {
        None => OTHER_VALUE,
        Some(content) => unload_in(content, hook),
    }
}
