// A case's bytes, read in order. Every read is total: past the end of the case there are zeros, so no read needs a proof, and a case that is cut
// off compares as different, since it doesn't end where its last value does. The layout is that of compare/README.md.
ghost use Rattle.std.specs.Prelude.{◌<◌};

use base::refusal::Refusal;
use base::verdict::{Verdict, accepted};

// No list of a case is this long.
const LONG: u32 = 1_000_000;

// The bit of the sign, and the pattern of infinity: without its sign, a pattern above it is a NaN's.
const SIGN: u64 = 0x8000_0000_0000_0000;

const INFINITY: u64 = 0x7ff0_0000_0000_0000;

// A case, and how far it is read.
#[derive(Clone, Copy)]
pub(crate) struct Case<'a> {
    bytes: &'a [u8],
    at: usize,
}

// What a list of a case is made of.
pub(crate) trait Value: Copy {
    // How many bytes one takes.
    const SIZE: usize;

    fn read(case: &mut Case) -> Self;

    // Whether the two are the same to the bit.
    fn is(self, other: Self) -> bool;

    // What an output holds at index i before a call: no two values alike, and none that a call would write by chance.
    fn lent(i: usize) -> Self;
}

impl Value for u16 {
    const SIZE: usize = 2;

    fn read(case: &mut Case) -> u16 {
        u16::from_le_bytes(case.take())
    }

    fn is(self, other: u16) -> bool {
        self == other
    }

    fn lent(i: usize) -> u16 {
        let k = i % 65536;
        u16::MAX - k as u16
    }
}

impl Value for u32 {
    const SIZE: usize = 4;

    fn read(case: &mut Case) -> u32 {
        u32::from_le_bytes(case.take())
    }

    fn is(self, other: u32) -> bool {
        self == other
    }

    fn lent(i: usize) -> u32 {
        let k = i % 4294967296;
        u32::MAX - k as u32
    }
}

impl Value for f64 {
    const SIZE: usize = 8;

    fn read(case: &mut Case) -> f64 {
        float_of(u64::from_le_bytes(case.take()))
    }

    // Of equal numbers only the two zeros differ in their bits, and their inverses differ. All NaNs are one.
    fn is(self, other: f64) -> bool {
        if self.is_nan() {
            return other.is_nan();
        }
        self == other && 1.0 / self == 1.0 / other
    }

    fn lent(i: usize) -> f64 {
        -f64::from(u32::lent(i))
    }
}

// A number, of which 0 is false.
impl Value for bool {
    const SIZE: usize = 4;

    fn read(case: &mut Case) -> bool {
        u32::read(case) != 0
    }

    fn is(self, other: bool) -> bool {
        self == other
    }

    fn lent(_i: usize) -> bool {
        false
    }
}

// The f64 of a pattern. All NaNs are one.
#[tactic(auto, using(std::proofs::lemmas::Float::not_nan_f64_bits))]
fn float_of(pattern: u64) -> f64 {
    if pattern % SIGN > INFINITY {
        return f64::NAN;
    }
    f64::from_bits(pattern)
}

// The bytes that are left, and zeros behind them.
fn padded<const N: usize>(rest: &[u8]) -> [u8; N] {
    let mut taken = [0; N];
    for (to, byte) in taken.iter_mut().zip(rest) {
        *to = *byte;
    }
    taken
}

impl<'a> Case<'a> {
    pub(crate) fn new(bytes: &'a [u8]) -> Case<'a> {
        Case { bytes, at: 0 }
    }

    // The next N bytes.
    pub(crate) fn take<const N: usize>(&mut self) -> [u8; N] {
        let rest = self.rest();
        let taken = match rest.first_chunk::<N>() {
            Some(taken) => *taken,
            None => padded(rest),
        };
        self.at = self.at.saturating_add(N);
        taken
    }

    // The bytes from here on; none past the end.
    fn rest(&self) -> &'a [u8] {
        let from = self.at.min(self.bytes.len());
        &self.bytes[from..]
    }

    pub(crate) fn next<T: Value>(&mut self) -> T {
        T::read(self)
    }

    // Whether the next value is this one.
    pub(crate) fn is<T: Value>(&mut self, value: T) -> bool {
        T::read(self).is(value)
    }

    // Whether the verdict and the value that come next are this answer: the value of a refusal is zero.
    pub(crate) fn is_answer<T: Value + Default>(&mut self, answer: Result<T, Refusal>) -> bool {
        let (verdict, value) = match answer {
            Ok(value) => (accepted(), value),
            Err(refusal) => (Verdict::from(refusal), T::default()),
        };
        self.is_verdict(verdict) && self.is(value)
    }

    pub(crate) fn is_verdict(&mut self, verdict: Verdict) -> bool {
        let number = self.next();
        let first = self.next();
        let second = self.next();
        verdict
            == Verdict {
                number,
                first,
                second,
            }
    }

    // The length of the list that comes next.
    fn length(&mut self) -> usize {
        let n: u32 = self.next();
        if n > LONG { 0 } else { n as usize }
    }

    // The list that comes next, put to the start of `out`: as much of it as there is room for. The rest is passed over unread, since a length
    // may say more than a case has.
    pub(crate) fn list<'b, T: Value>(&mut self, out: &'b mut [T]) -> &'b mut [T] {
        let n = self.length();
        let room = out.len();
        let list = &mut out[..n.min(room)];
        for slot in list.iter_mut() {
            *slot = self.next();
        }
        let rest = n.saturating_sub(room);
        self.at = self.at.saturating_add(rest.saturating_mul(T::SIZE));
        list
    }

    // Whether the list that comes next is just `values`.
    pub(crate) fn is_list<T: Value>(&mut self, values: &[T]) -> bool {
        if self.length() != values.len() {
            return false;
        }
        for value in values {
            if !self.is(*value) {
                return false;
            }
        }
        true
    }

    // The start of `out` as it is lent to a call, as long as the number that comes next says; none where that is more than there is room for.
    pub(crate) fn lend<'b, T: Value>(&mut self, out: &'b mut [T]) -> Option<&'b mut [T]> {
        let n = self.length();
        if n > out.len() {
            return None;
        }
        let lent = &mut out[..n];
        for (i, slot) in lent.iter_mut().enumerate() {
            *slot = T::lent(i);
        }
        Some(lent)
    }

    // Whether an output has the list that comes next written to its start, and is else as it was lent.
    pub(crate) fn is_written<T: Value>(&mut self, values: &[T]) -> bool {
        let written = self.length();
        if written > values.len() {
            return false;
        }
        for (i, value) in values.iter().enumerate() {
            let expected = if i < written { self.next() } else { T::lent(i) };
            if !value.is(expected) {
                return false;
            }
        }
        true
    }

    // Whether the case ends here.
    pub(crate) fn is_end(&self) -> bool {
        self.at == self.bytes.len()
    }
}
