// Why something isn't done, as the cause of the run's ending.
ghost use Rattle.std.specs.Prelude.{◌≡◌, Some};
ghost use Rattle.vab_cli.specs.Causes.{dropped_cause, noted};
ghost use Rattle.vab_causes.specs.declared.cause.Cause.TheVariants as causes;

use vab_bytes::Name36;
use vab_causes::Cause;
use vab_device::StartFault;
use vab_marks::UpdateMark;
use vab_model::{Refusal, Reply};

/// No device is opened.
pub(crate) fn note_opening(fault: &StartFault, cause: &mut Option<Cause>)
    ensures { cause.new ≡ Some (causes.Opening fault.now) }
{
    *cause = Some(Cause::Opening(*fault));
}

/// A disk is adopted, and this update or overlay that was there is dropped.
pub(crate) fn note_dropped(dropped: &Option<UpdateMark>, cause: &mut Option<Cause>)
    ensures { cause.new ≡ dropped_cause dropped.now }
{
    *cause = match dropped {
        Some(mark) => Some(Cause::Dropped(*mark)),
        None => None,
    };
}

/// A command is refused.
pub(crate) fn note_refusal(refusal: &Refusal, cause: &mut Option<Cause>)
    ensures { cause.new ≡ Some (causes.Refused refusal.now) }
{
    *cause = Some(Cause::Refused(*refusal));
}

/// A command of an installation is refused, at the image of this name or at none.
pub(crate) fn note_installing(at: &Option<Name36>, refusal: &Refusal, cause: &mut Option<Cause>)
    ensures { cause.new ≡ Some (causes.Installing at.now refusal.now) }
{
    *cause = Some(Cause::Installing(*at, *refusal));
}

/// A command was replied to. Of one that isn't refused nothing is noted.
pub(crate) fn note_reply(reply: &Reply, cause: &mut Option<Cause>)
    ensures { cause.new ≡ noted reply.now cause.old }
{
    match reply {
        Reply::Refused(refusal) => note_refusal(refusal, cause),
        Reply::Done
        | Reply::Booted(_)
        | Reply::Bytes(_)
        | Reply::Digest(_)
        | Reply::Left(_)
        | Reply::Merged => {}
    }
}
