// The laws of the definitions.

ghost use Rattle.std.specs.Prelude.{◌≡◌, List, ◌++◌};
ghost use Rattle.px_world.specs.World.{World};
ghost use Rattle.px_world.specs.Output.{world_by, AreAdmitted};
ghost use Rattle.px_sieve.specs.Scene.{Item, inner, shown_by};

/// Two lists of items, one after the other, are one list: its events, their world, and the effects that are shown. Source:
/// own.
pub fn scenes_join()
    ensures events { (earlier later : List Item) → inner (earlier ++ later) ≡ inner earlier ++ inner later }
    ensures world { (w : World) (earlier later : List Item)
        → world_by w (inner (earlier ++ later)) ≡ world_by (world_by w (inner earlier)) (inner later) }
    ensures shown { (w : World) (earlier later : List Item)
        → shown_by w (earlier ++ later) ≡ shown_by w earlier ++ shown_by (world_by w (inner earlier)) later }
    ensures admitted { (w : World) (earlier later : List Item) → AreAdmitted w (inner earlier)
        → AreAdmitted (world_by w (inner earlier)) (inner later) → AreAdmitted w (inner (earlier ++ later)) }
{}
