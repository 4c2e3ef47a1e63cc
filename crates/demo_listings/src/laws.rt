//! Laws over the definitions alone, each the contract of a function that does nothing: a caller gets the law from a call.

ghost use Rattle.demo_listings.specs.Laws.{DoomListsAsBefore, SameBytes, SameOrDiffer};

use later_demos::laws::one_reading;

/// A difference is reported only of demos that aren't the same.
pub fn told_demos_differ()
    ensures { SameOrDiffer }
{}

/// Demos are the same exactly where all their bytes are, from the version to the marker, and what is compared of the wrappers.
pub fn same_demos_have_the_same_bytes()
    ensures { SameBytes }
{
    one_reading();
}

/// A demo of Doom 1.9 has the listing that `wadlook` prints.
pub fn doom_is_listed_as_before()
    ensures { DoomListsAsBefore }
{}
