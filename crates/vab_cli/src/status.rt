// How the program ends.
ghost use Rattle.std.specs.Prelude.{◌≡◌};

use vab_adopt::AdoptFault;
use vab_causes::Cause;
use vab_device::{Device, StartFault};
use vab_input::InputFault;
use vab_make::MakeFault;
use vab_model::Reply;
use vab_session::{Ended, SessionFault};
use vab_set::SetFault;

/// The status that the program ends with.
#[derive(Clone, Copy, Debug, PartialEq, Eq)]
pub enum Status {
    /// 0: done.
    Done,
    /// 2: the words aren't taken. Nothing is told.
    Usage,
    /// 3: the input is malformed: of a session a bad hello, a command packet that is too long, more
    /// data than were announced, an input that ends inside something, or one of more than 2^44
    /// bytes; or no set of images, or more than 2^32 bytes.
    Malformed,
    /// 4: the command is refused, or the device isn't made, or the disk is adopted already.
    Refused,
    /// 5: the disk is no device, or has too few sectors to make one.
    NotADevice,
    /// 6: the disk failed.
    Disk,
    /// 7: hearing or telling failed.
    Port,
    /// 8: memory was refused.
    NoMemory,
}

impl Status {
    ghost use Rattle.vab_cli.specs.Codes.{code_of};

    /// The number of the status.
    pub fn code(&self) -> u8
        ensures { result ≡ code_of self.now }
    {
        match self {
            Status::Done => 0,
            Status::Usage => 2,
            Status::Malformed => 3,
            Status::Refused => 4,
            Status::NotADevice => 5,
            Status::Disk => 6,
            Status::Port => 7,
            Status::NoMemory => 8,
        }
    }

    // The status in words.
    pub(crate) fn text(&self) -> &'static str {
        match self {
            Status::Done => "done",
            Status::Usage => "the words aren't taken",
            Status::Malformed => "malformed input",
            Status::Refused => "refused",
            Status::NotADevice => "no device",
            Status::Disk => "the disk failed",
            Status::Port => "the input or the output failed",
            Status::NoMemory => "out of memory",
        }
    }
}

impl From<SessionFault> for Status {
    ghost use Rattle.vab_cli.specs.Codes.{status_of};

    ghost from_gives = { λ fault status. status ≡ status_of fault };

    fn from(fault: SessionFault) -> Self {
        match fault {
            SessionFault::Disk => Status::Disk,
            SessionFault::Source | SessionFault::Sink => Status::Port,
            SessionFault::BadHello
            | SessionFault::TooLong(_)
            | SessionFault::Cut(_)
            | SessionFault::Overrun(_, _)
            | SessionFault::Spent => Status::Malformed,
        }
    }
}

impl From<StartFault> for Status {
    ghost use Rattle.vab_cli.specs.Codes.{start_status};

    ghost from_gives = { λ fault status. status ≡ start_status fault };

    fn from(fault: StartFault) -> Self {
        match fault {
            StartFault::TooSmall(_, _)
            | StartFault::BadMark(_)
            | StartFault::BadControl(_)
            | StartFault::BadPhysical
            | StartFault::BadGeometry
            | StartFault::BadTable(_)
            | StartFault::BadPartition(_)
            | StartFault::BadStore(_)
            | StartFault::BadState(_) => Status::NotADevice,
            StartFault::NoMemory => Status::NoMemory,
            StartFault::Disk(_) => Status::Disk,
        }
    }
}

impl From<AdoptFault> for Status {
    ghost use Rattle.vab_cli.specs.Codes.{adopt_status};

    ghost from_gives = { λ fault status. status ≡ adopt_status fault };

    fn from(fault: AdoptFault) -> Self {
        match fault {
            AdoptFault::AlreadyDevice => Status::Refused,
            AdoptFault::NoDevice(fault) => Status::from(fault),
        }
    }
}

impl From<MakeFault> for Status {
    ghost use Rattle.vab_cli.specs.Codes.{make_status};

    ghost from_gives = { λ fault status. status ≡ make_status fault };

    fn from(fault: MakeFault) -> Self {
        match fault {
            MakeFault::TooSmall(_, _) => Status::NotADevice,
            MakeFault::GroupLimit(_, _) | MakeFault::NoRoom(_, _) | MakeFault::TableFull(_, _) => {
                Status::Refused
            }
            MakeFault::NoMemory => Status::NoMemory,
            MakeFault::Disk(_) => Status::Disk,
        }
    }
}

impl From<InputFault> for Status {
    ghost use Rattle.vab_cli.specs.Codes.{input_status};

    ghost from_gives = { λ fault status. status ≡ input_status fault };

    fn from(fault: InputFault) -> Self {
        match fault {
            InputFault::TooLong => Status::Malformed,
            InputFault::Source => Status::Port,
            InputFault::NoMemory => Status::NoMemory,
        }
    }
}

impl From<SetFault> for Status {
    ghost use Rattle.vab_cli.specs.Codes.{set_status};

    ghost from_gives = { λ fault status. status ≡ set_status fault };

    fn from(fault: SetFault) -> Self {
        match fault {
            SetFault::BadMagic
            | SetFault::TooMany(_)
            | SetFault::BadName(_)
            | SetFault::Repeated(_, _)
            | SetFault::TooBig(_)
            | SetFault::Cut(_)
            | SetFault::Trailing => Status::Malformed,
            SetFault::NoMemory => Status::NoMemory,
        }
    }
}

impl From<&Reply> for Status {
    ghost use Rattle.vab_cli.specs.Codes.{reply_status};

    ghost from_gives = { λ reply status. status ≡ reply_status reply.now };

    fn from(reply: &Reply) -> Self {
        match reply {
            Reply::Refused(_) => Status::Refused,
            Reply::Done
            | Reply::Booted(_)
            | Reply::Bytes(_)
            | Reply::Digest(_)
            | Reply::Left(_)
            | Reply::Merged => Status::Done,
        }
    }
}

ghost use Rattle.vab_cli.specs.Causes.{session_cause};
ghost use Rattle.vab_cli.specs.Codes.{session_status};

/// Why a session stops, where it does.
pub(crate) fn session_cause(answer: &Result<(Ended, Device), SessionFault>) -> Option<Cause>
    ensures { result ≡ session_cause answer.now }
{
    match answer {
        Ok(_) => None,
        Err(fault) => Some(Cause::Session(*fault)),
    }
}

/// The status of what a session answers.
pub(crate) fn session_status(answer: &Result<(Ended, Device), SessionFault>) -> Status
    ensures { result ≡ session_status answer.now }
{
    match answer {
        Ok(_) => Status::Done,
        Err(fault) => Status::from(*fault),
    }
}
