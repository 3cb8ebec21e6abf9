// The words of the command line.
use std::env::FillError;
use std::num::NonZeroU32;
use std::rt::Env;

// The rate code, and k: every k-th sample is taken.
#[derive(Clone, Copy)]
pub struct Asked {
    pub code: u32,
    pub k: NonZeroU32,
}

impl Asked {
    // What the command line asks, where its words are good.
    pub fn read(rt: HostRuntime) -> Option<Asked> {
        if input::has_word(rt, 3) {
            return None;
        }
        let code = word(rt, 1)?.get();
        let k = word(rt, 2)?;
        rate::is_named(code).then_some(Asked { code, k })
    }
}

// The number that a word of at most 32 bytes is: 1 where there is no such word.
fn word(rt: HostRuntime, i: usize) -> Option<NonZeroU32> {
    let mut digits = [0; 32];
    match rt.arg(i, &mut digits) {
        Ok(length) => decimal(&digits[..length]),
        Err(FillError::NotPresent) => Some(NonZeroU32::MIN),
        Err(FillError::TooLong) => None,
    }
}

// The largest number that a word may be.
const MOST: u32 = 999999999;

// The number of some digits, from 1 to the largest.
fn decimal(digits: &[u8]) -> Option<NonZeroU32> {
    let mut number: u32 = 0;
    for &byte in digits {
        let digit = char::from(byte).to_digit(10)?;
        number = number.checked_mul(10)?.checked_add(digit)?;
    }
    NonZeroU32::new(number).filter(|number| number.get() <= MOST)
}
