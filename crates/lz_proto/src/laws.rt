//! Laws of lines. Each function is one law.
ghost use Rattle.lz_proto.specs.Pieces.{AnyPieces, OneListOfItems};

/// Each text has exactly one list of items.
pub fn one_list_of_items()
    ensures { OneListOfItems }
{}

/// However a text is cut into pieces, its items are those that the pieces give and the fault at its end.
pub fn any_pieces()
    ensures { AnyPieces }
{}
