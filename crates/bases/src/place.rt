// POS counts from 1, a place in the reference counts from 0: types of their own, with one conversion each way.
ghost use Rattle.std.specs.Prelude.{◌≡◌, ◌≤◌, ◌<◌};
ghost use Rattle.bases.specs.Place.{pos_of, place_of};
ghost use Rattle.bases.specs.Reference.{longest_reference};

// A position as VCF writes it.
#[derive(Clone, Copy, PartialEq, Eq, PartialOrd, Ord)]
pub struct Pos(pub usize);

// A place in the reference.
#[derive(Clone, Copy, PartialEq, Eq, PartialOrd, Ord)]
pub struct Place(pub usize);

// The POS of a place.
pub fn pos_of(place: Place) -> Pos
    requires { place.0 < longest_reference }
    ensures { result ≡ pos_of place }
{
    Pos(place.0 + 1)
}

// The place of a POS.
pub fn place_of(pos: Pos) -> Place
    requires { 1 ≤ pos.0 }
    ensures { result ≡ place_of pos }
{
    Place(pos.0 - 1)
}
