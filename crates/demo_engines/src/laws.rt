//! Laws over the definitions alone, each the contract of a function that does nothing: a caller gets the law from a call.

ghost use Rattle.demo_engines.specs.Laws.{AssembledIsDemo, AssembledListsAgain, DoomIsTold, FrontTellsHeader, ObjectIsRead, OneListing, RefusedIsRead};

use later_demos::laws::headers_have_players;

/// Of a demo of version 109, 110 or 111 that stands in no wrapper the line is that of its numbers alone.
pub fn doom_is_told_as_before()
    ensures { DoomIsTold }
{}

/// The lines before the commands of a listing give back the whole header of a demo that stands in no wrapper, whatever engine recorded
/// it.
pub fn listings_tell_headers()
    ensures { FrontTellsHeader }
{
    headers_have_players();
}

/// A text is the listing of one demo at most.
pub fn one_listing()
    ensures { OneListing }
{}

/// The demo assembled from a listing is the listed demo without the bytes after its marker. Its own listing is the same text, but
/// for `after 0`.
pub fn assembled_lists_again()
    ensures demo { AssembledIsDemo }
    ensures listing { AssembledListsAgain }
{}

/// The kit's reader of JSON reads the object of a demo back: one line, and one object of just its members, if its numbers have at
/// most 64 bits. The same holds for a demo that isn't read.
pub fn objects_are_read()
    ensures read { ObjectIsRead }
    ensures refused { RefusedIsRead }
{}
