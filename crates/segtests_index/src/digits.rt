//! Numbers as values: their decimal digits.
use segword::Value;
use std::str;

// The most decimal digits of a u32.
const DIGITS: usize = 10;

/// The value of a number.
pub fn value_of(number: u32) -> Option<Value> {
    let mut text = [0; DIGITS];
    let start = itoa::write_digits(u64::from(number), &mut text, DIGITS);
    Value::new(&text[start..])
}

/// The number of a value that is just its digits.
pub fn number_of(value: &Value) -> Option<u32> {
    let number = str::from_utf8(value.as_bytes()).ok()?.parse().ok()?;
    (value_of(number)? == *value).then_some(number)
}
