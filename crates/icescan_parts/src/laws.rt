//! What the parts come to.

ghost use Rattle.icescan_parts.specs.Parts.{AreApart, AreNoMore, AreTogether};
ghost use Rattle.icescan_parts.specs.Stays.{LetsGoNoneKept, TellsAllKept, TellsOnlyKept};

use ice_desk::Files;

/// What some snapshots alone reach, and what is reached without them, has no file in common. Each line of all is in the
/// first, or the second has a line of its path; and the first has no line that is not among all.
pub fn parts_are_apart()
    ensures apart { AreApart }
    ensures together { AreTogether }
    ensures no_more { AreNoMore }
{}

/// Each line of those that stay is that of a file that is reached without some snapshots. Where reads give what a world
/// has, each such file has its line among them, and is none of those that are let go.
pub fn none_let_go_is_needed<F: Files>(files: &F)
    ensures only { TellsOnlyKept (F.gives files.now) }
    ensures kept { TellsAllKept (F.gives files.now) }
    ensures let_go { LetsGoNoneKept (F.gives files.now) }
{}
