// Where each connection lies: numbers with the slab's keys, by rising number.
ghost use Rattle.std.specs.Prelude.{◌≡◌, IfOk, IfErr};
ghost use Rattle.live_conns.specs.Places.{IsAtNumber, IsRising, LacksNumber};

/// A connection's number, and the key under which it is kept.
#[derive(Clone, Copy)]
pub struct Place {
    pub number: u64,
    pub key: usize,
}

// Where the connection is.
pub(crate) fn place_of(places: &[Place], c: u64) -> Result<usize, usize>
    requires { IsRising places.now }
    ensures found { IfOk result (IsAtNumber places.now c) }
    ensures absent { IfErr result (λ at. LacksNumber places.now c) }
{
    places.binary_search_by_key(&c, |place| place.number)
}
