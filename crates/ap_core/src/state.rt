//! What a shard keeps of its history, and what its rules need.

use ap_agreements::Agreements;
use ap_model::LinkConfig;
use assoc::{Class, Link, Standing};
use bpf_regions::Frame;
use mac_frame::MacFrame;
use std::alloc::Global;

/// The stations' standing, the agreements, and the sum of the ticks so far, at most 2^64 - 1.
#[derive(Drop)]
pub(crate) struct State {
    pub(crate) link: Link,
    pub(crate) agreements: Agreements,
    pub(crate) clock: u64,
}

/// What all rules of a shard need.
#[derive(Clone, Copy)]
pub(crate) struct Setting<'a> {
    pub(crate) alloc: Global,
    pub(crate) config: &'a LinkConfig,
}

/// A received frame: as parsed, its bytes, its class, and its sender's standing.
#[derive(Drop)]
pub(crate) struct Came<'a> {
    pub(crate) frame: MacFrame,
    pub(crate) bytes: Frame<'a>,
    pub(crate) class: Class,
    pub(crate) standing: Standing,
}
