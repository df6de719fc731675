//! Laws: a record retold with other operations, and where the places of its tape go.
ghost use Rattle.tao_laws.specs.Retold.{RetoldIsTwin, PlacesMove};

/// The permutation can be computed before the second play begins.
pub fn retold_is_twin()
    ensures { RetoldIsTwin }
{}

/// The permutation can be computed place by place.
pub fn places_move()
    ensures { PlacesMove }
{}
