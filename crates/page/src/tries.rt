// How often a call that a signal interrupts is tried again.
ghost use Rattle.std.specs.Prelude.{◌≡◌, ◌+◌, ◌<◌, ◌↔◌, pos, OnOk, OnErr, IfErr, IsOk, Some, unwrap_or};
ghost use Rattle.std.specs.IoError.{raw_os_error};
ghost use Rattle.page.specs.SystemError.{number_of};

use crate::SystemError;
use std::io;

// How many more interruptions are borne with.
#[derive(Clone, Copy)]
pub struct Tries {
    pub left: usize,
}

impl Tries {
    pub fn new() -> Tries
        ensures { result.left ≡ 100 }
    {
        Tries { left: 100 }
    }

    // Counts an interruption, after which the call is to be tried again. Any other error is handed
    // back, and so is one interruption too many.
    pub fn again(&mut self, error: io::Error) -> Result<(), SystemError>
        ensures interrupted { IsOk result ↔ ((raw_os_error error ≡ Some (pos 4)) × (0 < self.old.left)) }
        ensures ok { OnOk result (self.old.left ≡ self.new.left + 1) }
        ensures err { OnErr result (self.new ≡ self.old) }
        ensures error { IfErr result (λ e. number_of e ≡ unwrap_or (raw_os_error error) (pos 0)) }
    {
        let error = SystemError::from(error);
        if !error.is_interrupted() || self.left == 0 {
            return Err(error);
        }
        self.left -= 1;
        Ok(())
    }
}
