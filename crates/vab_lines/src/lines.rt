// The lines, put together in 256 bytes.
ghost use Rattle.std.specs.Prelude.{◌≡◌, ◌+◌, ◌≤◌, ◌++◌, [], length};
ghost use Rattle.vab_lines.specs.Lines as texts;

use arrayvec::ArrayVec;
use vab_fbproto::{put, put_decimal, put_refusal, put_share};
use vab_make::MakeFault;
use vab_model::Refusal;

// Puts how many images there are, behind a word, and the blocks that they fill of how many.
fn put_images(word: &[u8], images: u64, used: u64, cap: u64, out: &mut ArrayVec<u8, 256>)
    requires empty { out.old.items ≡ [] }
    requires short { length word.now ≤ 16 }
    ensures { out.new.items ≡ texts.images_line word.now images used cap }
{
    put(word, out);
    put_decimal(images, out);
    put_share(b" images, ", used, b" of ", cap, b" blocks\n", out);
}

/// The line for a device that is made: how many images it has, and how many blocks of 4096 bytes
/// they fill, of how many.
#[tactic(auto, unfolding(crate::specs::Lines::made_line))]
pub fn made_line(images: u64, used: u64, cap: u64, out: &mut ArrayVec<u8, 256>)
    requires { out.old.items ≡ [] }
    ensures { out.new.items ≡ texts.made_line images used cap }
{
    put_images(b"made ", images, used, cap, out);
}

/// The line for a disk that is adopted, with the same numbers.
#[tactic(auto, unfolding(crate::specs::Lines::adopted_line))]
pub fn adopted_line(images: u64, used: u64, cap: u64, out: &mut ArrayVec<u8, 256>)
    requires { out.old.items ≡ [] }
    ensures { out.new.items ≡ texts.adopted_line images used cap }
{
    put_images(b"adopted ", images, used, cap, out);
}

// Puts why a set of images is refused.
#[tactic(auto, unfolding(crate::specs::Lines::make_refusal))]
fn put_make_refusal(fault: &MakeFault, out: &mut ArrayVec<u8, 256>)
    requires { length out.old.items + 80 ≤ 256 }
    ensures text { out.new.items ≡ out.old.items ++ texts.make_refusal fault.now }
    ensures short { length out.new.items ≤ length out.old.items + 80 }
{
    match *fault {
        MakeFault::GroupLimit(used, limit) => put_refusal(&Refusal::GroupLimit(used, limit), out),
        MakeFault::NoRoom(used, cap) => put_refusal(&Refusal::NoRoom(used, cap), out),
        MakeFault::TableFull(size, most) => {
            put_refusal(&Refusal::TableFull(size, most as u64), out)
        }
        MakeFault::TooSmall(_, _) | MakeFault::NoMemory | MakeFault::Disk(_) => {}
    }
}

/// The line for a set of images that is refused. A fault that refuses no set leaves the reason
/// empty.
pub fn make_refused_line(fault: &MakeFault, out: &mut ArrayVec<u8, 256>)
    requires { out.old.items ≡ [] }
    ensures { out.new.items ≡ texts.refused_line (texts.make_refusal fault.now) }
{
    put(b"refused: ", out);
    put_make_refusal(fault, out);
    put(b"\n", out);
}
