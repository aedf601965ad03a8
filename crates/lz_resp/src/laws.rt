//! Laws of frames. Each function is one law.
ghost use Rattle.lz_resp.specs.Keys.{HashedOnce};
ghost use Rattle.lz_resp.specs.Pages.{FaultsHaveNoPage, PagesAreRead, PagesAreSpelled, PagesAreToldAndRead};
ghost use Rattle.lz_resp.specs.Pieces.{AnyPieces, FaultsHaveNoFrame, FramesAreRead, FramesAreSpelled, OneListOfItems};
ghost use Rattle.lz_resp.specs.Transactions.{NothingIsDone};

/// Each text has exactly one list of items.
pub fn one_list_of_items()
    ensures { OneListOfItems }
{}

/// However a text is cut into pieces, its items are those that the pieces give.
pub fn any_pieces()
    ensures { AnyPieces }
{}

/// In a transaction nothing is asked, and what doesn't end it changes nothing.
pub fn nothing_is_done()
    ensures { NothingIsDone }
{}

/// A frame is read wherever one stands, whatever follows it.
pub fn frames_are_read()
    ensures { FramesAreRead }
{}

/// What is read is a frame, each byte of it.
pub fn frames_are_spelled()
    ensures { FramesAreSpelled }
{}

/// Where a fault is told no frame stands, however the text goes on.
pub fn faults_have_no_frame()
    ensures { FaultsHaveNoFrame }
{}

/// What is hashed for a key of texts is of one name and one member.
pub fn hashed_once()
    ensures { HashedOnce }
{}

/// A page is read wherever one stands, whatever follows it.
pub fn pages_are_read()
    ensures { PagesAreRead }
{}

/// What is read as a page is one, each byte of it.
pub fn pages_are_spelled()
    ensures { PagesAreSpelled }
{}

/// Where a fault is told no page stands, however the text goes on.
pub fn faults_have_no_page()
    ensures { FaultsHaveNoPage }
{}

/// What the service tells of a page is read as its cursor and the room's members.
pub fn pages_are_told_and_read()
    ensures { PagesAreToldAndRead }
{}
