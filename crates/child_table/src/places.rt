// Where each child's row lies: numbers with the slab's keys, by rising number.
ghost use Rattle.std.specs.Prelude.{◌≡◌, IfOk, IfErr};
ghost use Rattle.child_table.specs.Places.{IsRising, IsAtPlace, IsGapForPlace};

/// The key under which the child with this number is kept.
#[derive(Clone, Copy)]
pub(crate) struct Place {
    pub number: u64,
    pub key: usize,
}

// Where the child is, or where it would go.
pub(crate) fn place_of(places: &[Place], k: u64) -> Result<usize, usize>
    requires { IsRising places.now }
    ensures found { IfOk result (IsAtPlace places.now k) }
    ensures absent { IfErr result (IsGapForPlace places.now k) }
{
    places.binary_search_by_key(&k, |place| place.number)
}
