//! Laws of the kit's functions on lists, by index.
ghost use Rattle.test_definitions.specs.ListLaws.{ChunkIsPart, ElementIsSum, NumberIsSum};
ghost use Rattle.test_definitions.specs.ListLaws.{SplitIsSplit, SplitIsUnique};

/// `chunk` takes a part of a list. `number_l` adds digits, each times its power of the base. So an element is the sum of
/// its bytes, each times its power of 256. `slice_split` cuts a text at each separator, and no other pieces are
/// possible.
pub fn lists_by_index()
    ensures chunk { ChunkIsPart }
    ensures number { NumberIsSum }
    ensures element { ElementIsSum }
    ensures split { SplitIsSplit }
    ensures unique { SplitIsUnique }
{}
