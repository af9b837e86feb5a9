// Footprints from OBJ files.
ghost use Rattle.rules.specs.Reach.{piece};
ghost use Rattle.baker.specs.Calls.{ObjGives};

use crate::given::slab_of;
use coding::Code;

#[unsafe(no_mangle)]
pub extern "C" fn baker_obj(
    file: &[u8],
    bottom: i32,
    top: i32,
    vx: i32,
    vy: i32,
    vz: i32,
    list: &mut [i32],
) -> u64
    ensures { ObjGives file.now (piece bottom top vx vy vz) list.old list.new result }
{
    let slab = slab_of(bottom, top, vx, vy, vz);
    obj::footprint(file, slab, list).code()
}
