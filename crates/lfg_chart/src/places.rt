ghost use Rattle.std.specs.Prelude.{◌≡◌, ◌↔◌, ◌⊎◌, ◌<◌, ◌≤◌, ◌^◌, ℕ, IsTrue};
ghost use Rattle.lfg_chart.specs.Places.{Has};

/// A set of places of a sentence, each below 128.
#[derive(Clone, Copy, Debug)]
pub(crate) struct Places {
    bits: u128,
}

impl Places {
    /// No place.
    pub fn none() -> Places
        ensures { (k : ℕ) → Has result k → ⊥ }
    {
        Places { bits: 0 }
    }

    /// This place alone.
    pub fn one(place: usize) -> Places
        requires { place < 128 }
        ensures { (k : ℕ) → Has result k ↔ (k ≡ place) }
    {
        Places { bits: 1 << place }
    }

    /// Whether the place is among them.
    pub fn has(self, place: usize) -> bool
        requires { place < 128 }
        ensures { IsTrue result ↔ Has self place }
    {
        (self.bits >> place) & 1 == 1
    }

    /// Those of both sets.
    pub fn join(self, other: Places) -> Places
        ensures exact { (k : ℕ) → Has result k ↔ (Has self k ⊎ Has other k) }
        ensures grows { self.bits ≤ result.bits }
        ensures within { result.bits < 2 ^ 128 }
    {
        Places {
            bits: self.bits | other.bits,
        }
    }

    /// Whether both sets have the same places.
    pub fn same(self, other: Places) -> bool
        ensures { IsTrue result ↔ (self ≡ other) }
    {
        self.bits == other.bits
    }
}
