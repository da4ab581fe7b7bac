// What calls answer, as the lines of the output show it. Display does not serve: most of these types are other crates'.
use crate::out::Out;
use mpe_layout::{MemberError, MpeLayout, MpeZone};
use mpe_pitch::{MpeSensitivity, OffsetWithRemainder};
use settings::ZoneSettings;
use setup_entry::SetupError;
use std::fmt::Write;
use ump::reply::OutOfRange;
use zone_sender::WriteError;

pub(crate) trait Answer {
    fn write(&self, out: &mut Out);
}

// Makes a call on a buffer of n elements, up to MOST, and writes its answer and the buffer.
pub(crate) fn write_into<
    T: Answer + Copy,
    const MOST: usize,
    F: FnOnce(&mut [T]) -> Result<usize, WriteError>,
>(before: [T; MOST], n: usize, call: F, out: &mut Out)
    requires { F.IsAlwaysCallable call }
{
    let mut elements = before;
    let elements = &mut elements[..n.min(MOST)];
    call(elements).write(out);
    write_elements(elements, out);
}

// A colon and the elements of a buffer, a space before each.
pub(crate) fn write_elements<T: Answer>(elements: &[T], out: &mut Out) {
    out.text(b" :");
    for element in elements {
        out.byte(b' ');
        element.write(out);
    }
}

// A call that answers nothing.
impl Answer for () {
    fn write(&self, out: &mut Out) {
        out.text(b"ok");
    }
}

// Text stands as it is.
impl Answer for &str {
    fn write(&self, out: &mut Out) {
        out.text(self.as_bytes());
    }
}

// Numbers stand in decimal.
impl Answer for u32 {
    fn write(&self, out: &mut Out) {
        let _ = write!(out, "{self}");
    }
}

impl Answer for i32 {
    fn write(&self, out: &mut Out) {
        let _ = write!(out, "{self}");
    }
}

impl Answer for usize {
    fn write(&self, out: &mut Out) {
        let _ = write!(out, "{self}");
    }
}

impl Answer for u16 {
    fn write(&self, out: &mut Out) {
        (*self as u32).write(out);
    }
}

impl Answer for u8 {
    fn write(&self, out: &mut Out) {
        (*self as u32).write(out);
    }
}

// 1 for true, 0 for false.
impl Answer for bool {
    fn write(&self, out: &mut Out) {
        (*self as u8).write(out);
    }
}

// A space stands between two.
impl<A: Answer, B: Answer> Answer for (A, B) {
    fn write(&self, out: &mut Out) {
        self.0.write(out);
        out.byte(b' ');
        self.1.write(out);
    }
}

impl<A: Answer, B: Answer, C: Answer> Answer for (A, B, C) {
    fn write(&self, out: &mut Out) {
        self.0.write(out);
        out.byte(b' ');
        self.1.write(out);
        out.byte(b' ');
        self.2.write(out);
    }
}

impl<A: Answer, const N: usize> Answer for [A; N] {
    fn write(&self, out: &mut Out) {
        for (k, answer) in self.iter().enumerate() {
            if k > 0 {
                out.byte(b' ');
            }
            answer.write(out);
        }
    }
}

impl<A: Answer> Answer for Option<A> {
    fn write(&self, out: &mut Out) {
        match self {
            Some(answer) => answer.write(out),
            None => out.byte(b'-'),
        }
    }
}

impl<A: Answer, E: Answer> Answer for Result<A, E> {
    fn write(&self, out: &mut Out) {
        match self {
            Ok(answer) => answer.write(out),
            Err(refusal) => refusal.write(out),
        }
    }
}

// Refusals stand by the papers' numbers.
impl Answer for OutOfRange {
    fn write(&self, out: &mut Out) {
        out.text(b"!1");
    }
}

impl Answer for WriteError {
    fn write(&self, out: &mut Out) {
        match *self {
            WriteError::OutOfRange => OutOfRange.write(out),
            WriteError::TooSmall { needed, got } => ("!2", needed, got).write(out),
        }
    }
}

impl Answer for MemberError {
    fn write(&self, out: &mut Out) {
        match self {
            MemberError::OutOfRange => OutOfRange.write(out),
            MemberError::NoMembers => out.text(b"!3"),
        }
    }
}

impl Answer for SetupError {
    fn write(&self, out: &mut Out) {
        match self {
            SetupError::OutOfRange => OutOfRange.write(out),
            SetupError::WrongLength => out.text(b"!4"),
            SetupError::OutOfOrder => out.text(b"!5"),
        }
    }
}

// 0 for Lower, 1 for Upper.
impl Answer for MpeZone {
    fn write(&self, out: &mut Out) {
        (*self as u8).write(out);
    }
}

impl Answer for MpeLayout {
    fn write(&self, out: &mut Out) {
        (self.lower, self.upper).write(out);
    }
}

impl Answer for MpeSensitivity {
    fn write(&self, out: &mut Out) {
        (self.semitones, self.cents).write(out);
    }
}

impl Answer for ZoneSettings {
    fn write(&self, out: &mut Out) {
        (self.manager, self.member, self.mode).write(out);
    }
}

impl Answer for OffsetWithRemainder {
    fn write(&self, out: &mut Out) {
        (self.offset, self.remainder).write(out);
    }
}
