ghost use Rattle.alias_groups.specs.GroupLaws.{DefineAppends, DepthSuffices, EachOnce, RemoveTakes};

/// Laws of aliases: a defined alias has its members and the new ones, a removed one has none, and nothing else changes.
pub fn aliases_are_kept()
    ensures appends { DefineAppends }
    ensures takes { RemoveTakes }
{}

/// A law of expansion: no name stands twice in it, ASCII case ignored.
pub fn each_name_once()
    ensures { EachOnce }
{}

/// A law of expansion: its walk is never cut short, since one that may open more walks at once comes to the same.
pub fn no_walk_is_cut()
    ensures { DepthSuffices }
{}
