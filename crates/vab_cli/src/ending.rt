// How a run ends, and why.
ghost use Rattle.std.specs.Prelude.{◌≡◌};
ghost use Rattle.vab_cli.specs.Codes.{code_of};

use crate::Status;
use std::fmt;
use vab_causes::Cause;

/// How a run ends. Displayed it is one line for people, without its newline: the status in words,
/// or where a cause says more that.
#[derive(Clone, Copy, Debug, PartialEq, Eq)]
pub struct Ending {
    /// The status that the program ends with.
    pub status: Status,
    /// Why, where the status is 3, 4 or 5; where it is 0, the update or the overlay that was
    /// dropped, if one was. With another status it says nothing.
    pub cause: Option<Cause>,
}

impl Ending {
    /// The number of the status.
    pub fn code(&self) -> u8
        ensures { result ≡ code_of self.now.status }
    {
        self.status.code()
    }
}

impl fmt::Display for Ending {
    fn fmt<W: fmt::Write>(&self, f: &mut fmt::Formatter<W>) -> fmt::Result {
        match (self.status, &self.cause) {
            (Status::Malformed | Status::Refused | Status::NotADevice, Some(cause)) => {
                write!(f, "{cause}")
            }
            (status, _) => write!(f, "{}", status.text()),
        }
    }
}
