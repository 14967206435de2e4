// Reading numbers: an optional sign and 1 to 20 digits.

// The number that a text says. One whose size is above a u64 is of no range, and counts as none.
pub(crate) fn number(text: &[u8]) -> Option<i128> {
    match text.strip_prefix(b"-") {
        Some(digits) => Some(-i128::from(size(digits)?)),
        None => Some(i128::from(size(text)?)),
    }
}

// The number of a text, where its type holds it.
pub(crate) fn read<T: TryFrom<i128>>(text: &[u8]) -> Option<T>
where
    T::Error: Drop,
{
    T::try_from(number(text)?).ok()
}

// The number of a text, where it is between two bounds.
pub(crate) fn read_between(least: u32, most: u32, text: &[u8]) -> Option<u32> {
    read(text).filter(|number| (least..=most).contains(number))
}

// What stands for 1 or 0.
// By a match: bool has no TryFrom of a number.
pub(crate) fn flag(text: &[u8]) -> Option<bool> {
    match number(text)? {
        0 => Some(false),
        1 => Some(true),
        _ => None,
    }
}

// Digits by hand: `parse` wants a &str, and takes a + in front, which a line may not have.
fn size(digits: &[u8]) -> Option<u64> {
    if digits.is_empty() || 20 < digits.len() {
        return None;
    }
    let mut size = 0u64;
    for byte in digits {
        size = size.checked_mul(10)?.checked_add(digit(*byte)?)?;
    }
    Some(size)
}

// An `if` and no `then`: a closure isn't told that the byte is a digit.
fn digit(byte: u8) -> Option<u64> {
    if byte.is_ascii_digit() {
        Some(u64::from(byte - b'0'))
    } else {
        None
    }
}
