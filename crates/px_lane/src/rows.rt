// What turns cost, worked out.
ghost use Rattle.std.specs.Prelude.{◌≡◌, []};
ghost use Rattle.px_lane.specs.Costs.{turn_cost};
ghost use Rattle.px_lane.specs.Rows.{two_mixed, two_streams, other_factor, same_factor, later_frames};
ghost use Rattle.px_model.specs.Rows.{small_sink};

/// Two streams of 100 frames each are mixed once by the turn in which they come: 100 frames read and added for each, and clipped. No message of it
/// costs anything, since no frames were mixed before. Then, with a guard of 10 frames: other factors for one stream touch at most 450 samples, five
/// times the 90 frames from the horizon on; factors that it has already, frames past those that are mixed, and a turn with no message touch none.
/// Takes no memory. Source: own.
pub fn turns_cost_this()
    ensures first { turn_cost small_sink 0 two_streams ≡ 500 }
    ensures other { turn_cost two_mixed 0 other_factor ≡ 450 }
    ensures same { turn_cost two_mixed 0 same_factor ≡ 0 }
    ensures later { turn_cost two_mixed 0 later_frames ≡ 0 }
    ensures nothing { turn_cost two_mixed 0 [] ≡ 0 }
{}
