//! A law about the memory that an image describes.
ghost use Rattle.rv_model.specs.images.ImageCells.{HoldsCellsBelowEnd};

/// At each address below `ADDRESS_END`, the memory of an image has the cell that the image describes. It has none at or
/// above that address.
pub fn images_hold_cells()
    ensures { HoldsCellsBelowEnd }
{}
