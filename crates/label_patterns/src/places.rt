//! Sets of places of a label, as bits: the place p is in the set if bit p is one.
ghost use Rattle.std.specs.Prelude.{◌≡◌, ◌↔◌, ◌+◌, ◌<◌, ◌≤◌, ◌⊎◌, ◌==◌, IsTrue, length};
ghost use Rattle.label_patterns.specs.Places.{Has, AreEnds, AreStarts, AreThePlaces};

/// The set, with a further place if that is wanted.
pub fn with_place_if(places: u64, place: usize, wanted: bool) -> u64
    requires { place < 64 }
    ensures { (p : _) → Has result p ↔ (Has places p ⊎ (IsTrue wanted × (p ≡ place))) }
{
    if wanted { places | 1 << place } else { places }
}

/// Whether a place is in the set.
pub fn has(places: u64, place: usize) -> bool
    ensures { IsTrue result ↔ Has places place }
{
    place < 64 && places >> place & 1 == 1
}

/// The places at which a label of this many code points has a code point.
pub fn point_places(len: usize) -> u64
    requires { len ≤ 63 }
    ensures { (p : _) → Has result p ↔ (p < len) }
{
    (1 << len) - 1
}

/// All places of a label of this many code points.
pub fn all_places(len: usize) -> u64
    requires { len ≤ 63 }
    ensures { (p : _) → Has result p ↔ (p ≤ len) }
{
    let last = 1 << len;
    last | (last - 1)
}

/// The places of a label at which a code point stands.
pub fn places_of_point(label: &[u32], point: u32) -> u64
    requires { length label.now ≤ 63 }
    ensures { AreThePlaces (λ c. c == point) label.now result }
{
    let mut places = 0;
    for place in 0..label.len() {
        places = with_place_if(places, place, label[place] == point);
    }
    places
}

/// The places after those that are in both sets.
pub fn after(starts: u64, members: u64) -> u64
    requires { Has members 63 → ⊥ }
    ensures { AreEnds (λ i j. Has members i × (j ≡ i + 1)) starts result }
{
    (starts & members) << 1
}

/// The places of the second set that are right before those of the first.
pub fn before(ends: u64, members: u64) -> u64
    ensures { AreStarts (λ i j. Has members i × (j ≡ i + 1)) ends result }
{
    (ends >> 1) & members
}

/// The set of this place alone, if it is in the set; else the empty set.
pub fn only(starts: u64, place: usize) -> u64
    requires { place < 64 }
    ensures { AreEnds (λ i j. (i ≡ place) × (j ≡ place)) starts result }
{
    starts & (1 << place)
}

/// The places that are in at least one of the sets.
pub fn either(left: u64, right: u64) -> u64
    ensures places { (p : _) → (Has result p → Has left p ⊎ Has right p) × (Has left p → Has result p) ×
        (Has right p → Has result p) }
    ensures more { left ≤ result }
{
    left | right
}

/// The places that are in both sets.
pub fn both(left: u64, right: u64) -> u64
    ensures { (p : _) → Has result p ↔ (Has left p × Has right p) }
{
    left & right
}

/// The places that are in the first set, and not in the second.
pub fn without(left: u64, right: u64) -> u64
    ensures { (p : _) → Has result p ↔ (Has left p × (Has right p → ⊥)) }
{
    left & !right
}
