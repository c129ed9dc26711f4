// Why a run ends otherwise than done.

use crate::adopting::{write_adopting, write_dropped};
use crate::bytes::write_bytes;
use crate::making::write_making;
use crate::opening::write_opening;
use crate::session::write_session;
use crate::set::write_set;
use arrayvec::ArrayVec;
use std::fmt;
use vab_adopt::AdoptFault;
use vab_bytes::Name36;
use vab_device::StartFault;
use vab_fbproto::put_refusal;
use vab_make::MakeFault;
use vab_marks::UpdateMark;
use vab_model::Refusal;
use vab_session::SessionFault;
use vab_set::SetFault;

/// Why a run ends otherwise than done. Displayed it is one line, without its newline.
#[derive(Clone, Copy, Debug, PartialEq, Eq)]
pub enum Cause {
    /// No device was opened.
    Opening(StartFault),
    /// No device was made.
    Making(MakeFault),
    /// The disk wasn't adopted.
    Adopting(AdoptFault),
    /// It was adopted, and this update or overlay that was there is dropped.
    Dropped(UpdateMark),
    /// The input has more bytes than a set may have, 2^32.
    TooLong,
    /// The input is no set of images.
    Set(SetFault),
    /// The session stopped.
    Session(SessionFault),
    /// The command was refused.
    Refused(Refusal),
    /// A command of an installation was refused: one of the image of this name, or its begin or
    /// its end.
    Installing(Option<Name36>, Refusal),
}

// Writes why a command was refused, as the output tells it.
fn write_refusal<W: fmt::Write>(f: &mut fmt::Formatter<W>, refusal: &Refusal) -> fmt::Result {
    let mut text = ArrayVec::new();
    put_refusal(refusal, &mut text);
    write!(f, "refused: ")?;
    write_bytes(f, text.as_slice())
}

// Writes at which image of a set a command was refused, and what is to be done.
fn write_installing<W: fmt::Write>(
    f: &mut fmt::Formatter<W>,
    image: &Option<Name36>,
    refusal: &Refusal,
) -> fmt::Result {
    if let Some(name) = image {
        write!(f, "image ")?;
        write_bytes(f, name.text())?;
        write!(f, ": ")?;
    }
    write_refusal(f, refusal)?;
    if *refusal == Refusal::NotIdle {
        return Ok(());
    }
    write!(f, "; cancel drops what was begun")
}

impl fmt::Display for Cause {
    fn fmt<W: fmt::Write>(&self, f: &mut fmt::Formatter<W>) -> fmt::Result {
        match self {
            Cause::Opening(fault) => write_opening(f, fault),
            Cause::Making(fault) => write_making(f, fault),
            Cause::Adopting(fault) => write_adopting(f, fault),
            Cause::Dropped(mark) => write_dropped(f, mark),
            Cause::TooLong => write!(f, "malformed input: more than 2^32 bytes"),
            Cause::Set(fault) => write_set(f, fault),
            Cause::Session(fault) => write_session(f, fault),
            Cause::Refused(refusal) => write_refusal(f, refusal),
            Cause::Installing(image, refusal) => write_installing(f, image, refusal),
        }
    }
}
