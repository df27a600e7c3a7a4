//! Whether what is emptied keeps its memory.
ghost use Rattle.std.specs.Prelude.{◌↔◌, ◌<◌, ◌/◌, IsTrue};

/// Room for no more than so many stays.
const FEW: usize = 256;

/// Whether there is room for far more than was there. Then it is given back: a search that is small holds no memory of one
/// that was large, and clears no table that is, which takes time as the table's room.
pub fn is_far_more(room: usize, there: usize) -> bool
    ensures { IsTrue result ↔ (256 < room) × (there < room / 8) }
{
    FEW < room && there < room / 8
}
