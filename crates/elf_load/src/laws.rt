//! Laws of the definitions of an image's memory.
ghost use Rattle.elf_load.specs.Laws.{HoldsItsCells, TouchesWhatItCovers};

/// The memory that an image describes has at each address the cell that the image describes there. A segment touches a
/// page if and only if it covers one of the page's addresses.
pub fn image_laws()
    ensures cells { HoldsItsCells }
    ensures pages { TouchesWhatItCovers }
{}
