//! How much of the heap a session holds.
ghost use Rattle.std.specs.Prelude.{◌≡◌, ◌*◌, MatchOption, None, count_by, length};
ghost use Rattle.heap_room.specs.Bytes.{CoversBytes};
ghost use Rattle.mirfodwel.specs.Rows.{nodes_in};
ghost use Rattle.sessions.specs.Below.{is_held};

use crate::handle::Handle;
use crate::inside::Inside;
use crate::status::{DONE, WRONG_STATE};
use std::alloc::Global;

impl Inside {
    /// How many bytes of the heap the session holds, with the place where it lies.
    fn held_bytes(&self) -> usize
        ensures nodes { CoversBytes (count_by is_held (nodes_in self.now) * 72) result }
        ensures results { CoversBytes (length self.now.session.cache.results * 8) result }
    {
        self.session
            .held_bytes()
            .saturating_add(size_of::<Inside>())
    }
}

/// How many bytes of the heap the session holds, its own among them: what it has asked `malloc` and `realloc` for and not given
/// back. Of maps that is an estimate (`heap_room::map_bytes`). The time is linear in the nodes that are held and the results that
/// are stored. Each such node counts with 72 bytes at least, and each result with 8.
///
/// `WRONG_STATE` where the session is not open.
#[unsafe(no_mangle)]
pub extern "C" fn mirfodwel_held_bytes(alloc: Global, handle: &mut Handle, bytes: &mut usize) -> u8
    ensures held { MatchOption handle.old.address.inside ((result ≡ 6) × (bytes.new ≡ bytes.old))
        (λ inside. (result ≡ 0) × CoversBytes (count_by is_held (nodes_in inside) * 72) bytes.new
        × CoversBytes (length inside.session.cache.results * 8) bytes.new) }
    ensures same { handle.new.address.inside ≡ handle.old.address.inside }
{
    let Some(inside) = handle.take(alloc) else {
        return WRONG_STATE;
    };
    *bytes = inside.held_bytes();
    *handle = Handle::of(inside);
    DONE
}
