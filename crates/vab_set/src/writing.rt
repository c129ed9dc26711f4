//! Writing a set.

ghost use Rattle.std.specs.Prelude.{◌≡◌, ◌++◌, ◌≤◌, length, IfOk, OnOk};
ghost use Rattle.vab_set.specs.Spelling.{IsSet, image_text, set_text};

use crate::{NoMemory, Set, SetImage};
use std::alloc::Global;

#[tactic(auto, unfolding(crate::specs::Spelling::image_text))]
fn put_image(out: &mut Vec<u8>, image: &SetImage) -> Result<(), NoMemory>
    requires { length image.now.name ≤ 30 }
    ensures { OnOk result (out.new.items ≡ out.old.items ++ image_text image.now) }
{
    let name = image.name.text();
    out.push(name.len() as u8)?;
    out.extend_from_slice(name)?;
    out.extend_from_slice(&image.size.to_le_bytes())?;
    out.extend_from_slice(&image.store.to_le_bytes())?;
    out.extend_from_slice(&(image.bytes.len() as u64).to_le_bytes())?;
    out.extend_from_slice(image.bytes.as_slice())?;
    Ok(())
}

/// The one spelling of the set.
pub fn write_set(alloc: Global, set: &Set) -> Result<Vec<u8>, NoMemory>
    requires { IsSet set.now }
    ensures { IfOk result (λ v. v.items ≡ set_text set.now) }
{
    let mut out = Vec::new(alloc);
    out.extend_from_slice(b"VABSET1\n")?;
    out.extend_from_slice(&(set.len() as u32).to_le_bytes())?;
    for image in set.as_slice() {
        put_image(&mut out, image)?;
    }
    Ok(out)
}
