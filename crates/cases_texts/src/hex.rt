//! Bytes as hexadecimal digits.

/// Appends the bytes that hexadecimal digits write, blanks aside, and says whether there was memory
/// for them.
pub fn put_digits(digits: &str, bytes: &mut Vec<u8>) -> bool {
    let mut is_there = true;
    let mut high = None;
    for digit in digits.chars().filter(|c| *c != ' ') {
        let value = digit.to_digit(16).unwrap_or(0) as u8;
        high = match high {
            None => Some(value),
            Some(high) => {
                is_there = is_there && bytes.push(16 * (high % 16) + value % 16).is_ok();
                None
            }
        };
    }
    is_there
}
