//! Numbers in a JSON text, and their sum.
use serde_json::{Error, Value};
use std::alloc::Global;

/// How many numbers came, and their sum.
#[derive(Clone, Copy, Debug, PartialEq, Eq)]
pub struct Sum {
    pub count: usize,
    pub sum: i64,
}

/// Why there is no sum.
#[derive(Clone, Copy, Debug, PartialEq, Eq)]
pub enum SumError {
    /// The text is no JSON, or no UTF-8.
    NoJson,

    /// It isn't an object with a list `numbers` of whole numbers.
    NoNumbers,

    /// The sum, or that of the first ones, has no 64 bits.
    TooLarge,

    /// There is no memory to read it.
    NoMemory,
}

impl SumError {
    /// What it says to who sent the text.
    pub fn says(self) -> &'static str {
        match self {
            SumError::NoJson => "the body is no JSON",
            SumError::NoNumbers => "the body has no list of whole numbers",
            SumError::TooLarge => "the sum is too large",
            SumError::NoMemory => "there is no memory",
        }
    }
}

/// The sum of the numbers in a text as `{"numbers": [1, 2, 3]}`.
pub fn sum_of(alloc: Global, text: &[u8]) -> Result<Sum, SumError> {
    let value = read(alloc, text)?;
    let Some(numbers) = value.get("numbers").and_then(Value::as_array) else {
        return Err(SumError::NoNumbers);
    };
    let mut sum = 0_i64;
    for number in numbers {
        let Some(number) = number.as_i64() else {
            return Err(SumError::NoNumbers);
        };
        let Some(more) = sum.checked_add(number) else {
            return Err(SumError::TooLarge);
        };
        sum = more;
    }
    let count = numbers.len();
    Ok(Sum { count, sum })
}

fn read(alloc: Global, text: &[u8]) -> Result<Value, SumError> {
    match Value::from_slice(alloc, text) {
        Ok(value) => Ok(value),
        Err(error) if is_memory(&error) => Err(SumError::NoMemory),
        Err(_) => Err(SumError::NoJson),
    }
}

fn is_memory(error: &Error) -> bool {
    error.is_memory()
}
