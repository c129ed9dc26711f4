//! The plan with an image that was written.

ghost use Rattle.std.specs.Prelude.{◌≡◌, ◌<◌, length};
ghost use Rattle.vab_flash.specs.Chosen.{with_written};
ghost use Rattle.vab_flash.specs.Place.{plan_or};

use vab_bytes::Listing;
use vab_device::{Device, PartImage};
use vab_space::Chunk;
use vab_store::StoreView;

/// The device with these exceptions, in chunks of this size, for the planned partition at this
/// place, whose image was written. Takes no memory.
pub fn written(device: Device, place: usize, chunk: Chunk, view: StoreView) -> Device
    requires { place < length (plan_or device.plan) }
    ensures { result ≡ with_written device place chunk view }
{
    let mut device = device;
    let mut items = match device.plan.take() {
        Some(plan) => plan.into_vec(),
        None => unreachable!(),
    };
    items[place].image = PartImage::Written(chunk, view);
    Device {
        plan: Some(Listing::from_vec(items)),
        ..device
    }
}
