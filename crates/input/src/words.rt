// The words of the command line.
use std::env::FillError;
use std::rt::Env;

// Whether there is a word at a place. The program's name is at 0.
pub fn has_word(rt: HostRuntime, at: usize) -> bool {
    !matches!(rt.arg(at, &mut []), Err(FillError::NotPresent))
}
