// What slices hold before a call, and what is looked at in them afterwards.

pub(crate) const STAIN: u8 = 170;

pub(crate) const WORD_STAIN: u64 = 12297829382473034410;

pub(crate) const LINK_STAIN: u16 = 43690;

// Whether all of a slice are one value.
pub(crate) fn is_all<T: Copy + PartialEq>(slice: &[T], value: T) -> bool {
    slice.iter().all(|&x| x == value)
}

// Whether the first n of a slice, or all where it is shorter, are 0, and those behind them as they were.
pub(crate) fn is_cleared<T: Copy + PartialEq>(slice: &[T], n: usize, zero: T, stain: T) -> bool {
    let (first, rest) = slice.split_at(n.min(slice.len()));
    is_all(first, zero) && is_all(rest, stain)
}

// A sum over bytes, in their order, behind another sum.
pub(crate) fn sum_bytes(bytes: &[u8], before: u64) -> u64 {
    let mut sum = before % 4294967291;
    for &byte in bytes {
        sum = (sum * 257 + byte as u64 + 1) % 4294967291;
    }
    sum
}

// How it is told whether all that must not be touched was as before.
pub(crate) fn touched(kept: bool) -> &'static str {
    if kept { "" } else { " touched" }
}
