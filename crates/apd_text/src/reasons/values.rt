//! What the verifier knows of a value, as text.

use bpf_absnum::AbsNum;
use bpf_absval::{AbsRegion, AbsSlot, AbsVal, Label};
use std::fmt;
use std::fmt::Display;

/// Numbers, by their limits: `5`, `-4 .. 3`, `0 .. 56, multiples of 8`, `any number`. Signed limits are shown if they
/// tell more.
#[derive(Clone, Copy)]
pub struct NumberText(pub AbsNum);

#[derive(Clone, Copy)]
struct Limits(AbsNum);

/// Whether signed limits tell more than unsigned ones.
fn is_told_by_sign(number: AbsNum) -> bool {
    let range = number.range();
    let signed = number.signed();
    let width = range.high().wrapping_sub(range.low());
    let signed_width = signed.high().wrapping_sub(signed.low()).cast_unsigned();
    signed.low() < 0 && signed_width <= width
}

impl fmt::Display for Limits {
    fn fmt<W: fmt::Write>(&self, f: &mut fmt::Formatter<W>) -> fmt::Result {
        let range = self.0.range();
        let signed = self.0.signed();
        if is_told_by_sign(self.0) {
            if signed.low() == i64::MIN && signed.high() == i64::MAX {
                return f.write_str("any number");
            }
            return write!(f, "{} .. {}", signed.low(), signed.high());
        }
        write!(f, "{} .. {}", range.low(), range.high())
    }
}

impl fmt::Display for NumberText {
    fn fmt<W: fmt::Write>(&self, f: &mut fmt::Formatter<W>) -> fmt::Result {
        if self.0.is_single() {
            return write!(f, "{}", self.0.range().low().cast_signed());
        }
        Limits(self.0).fmt(f)?;
        let zeros = self.0.bits().trailing_zeros();
        if 0 < zeros && zeros < 64 {
            return write!(f, ", multiples of {}", 1u64 << zeros);
        }
        Ok(())
    }
}

/// What a register may hold: `unset`, `0 .. 255`, `frame + 14 .. 74, label 2`, `map 0 value + 0 .. 56`.
#[derive(Clone, Copy)]
pub struct ValueText(pub AbsVal);

#[derive(Clone, Copy)]
struct LabelText(Option<Label>);

impl fmt::Display for LabelText {
    fn fmt<W: fmt::Write>(&self, f: &mut fmt::Formatter<W>) -> fmt::Result {
        match self.0 {
            None => Ok(()),
            Some(Label { label, distance: 0 }) => write!(f, ", label {label}"),
            Some(Label { label, distance }) => write!(f, ", label {label} + {distance}"),
        }
    }
}

#[derive(Clone, Copy)]
struct RegionText(AbsRegion);

impl fmt::Display for RegionText {
    fn fmt<W: fmt::Write>(&self, f: &mut fmt::Formatter<W>) -> fmt::Result {
        match self.0 {
            AbsRegion::Context => f.write_str("context"),
            AbsRegion::Stack(number) => write!(f, "stack {number}"),
            AbsRegion::Entry(map) => write!(f, "map {map} value"),
        }
    }
}

impl fmt::Display for ValueText {
    fn fmt<W: fmt::Write>(&self, f: &mut fmt::Formatter<W>) -> fmt::Result {
        match self.0 {
            AbsVal::Unset => f.write_str("unset"),
            AbsVal::Number(number) => NumberText(number).fmt(f),
            AbsVal::Frame { offset, label } => write!(
                f,
                "frame + {}{}",
                NumberText(offset),
                LabelText(label)
            ),
            AbsVal::Pointer { region, offset } => write!(
                f,
                "{} + {}",
                RegionText(region),
                NumberText(offset)
            ),
            AbsVal::FrameEnd => f.write_str("the frame's end"),
            AbsVal::MapReference(map) => write!(f, "map {map}"),
            AbsVal::Lookup(map) => write!(f, "what a lookup in map {map} gave, not tested for 0"),
        }
    }
}

/// What eight bytes of a stack may hold.
#[derive(Clone, Copy)]
pub struct SlotText(pub AbsSlot);

impl fmt::Display for SlotText {
    fn fmt<W: fmt::Write>(&self, f: &mut fmt::Formatter<W>) -> fmt::Result {
        match self.0 {
            AbsSlot::Unset => f.write_str("unset"),
            AbsSlot::Stored(value) => ValueText(value).fmt(f),
            AbsSlot::Bytes(set) => write_set(f, set),
        }
    }
}

/// Which of eight bytes are set.
fn write_set<W: fmt::Write>(f: &mut fmt::Formatter<W>, set: u8) -> fmt::Result {
    if set == 0 {
        return f.write_str("unset");
    }
    f.write_str("bytes set:")?;
    for byte in 0..8u32 {
        if (set >> byte) & 1 == 1 {
            write!(f, " {byte}")?;
        }
    }
    Ok(())
}
