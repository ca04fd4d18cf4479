//! The heap, as a marking sees it.

ghost use Rattle.std.specs.Prelude.{◌≡◌, ℕ, ◌<◌, List, All};

/// The objects of a heap, as a marking sees them.
///
/// Objects are numbered from 0. The roots are the objects at which reachability begins. The pairs are all pairs of an
/// object and a successor of it. Only contracts see roots and pairs.
pub trait Edges {
    ghost count: { Self → ℕ };

    ghost roots: { Self → List ℕ };

    ghost pairs: { Self → List (ℕ × ℕ) };

    /// Returns the number of objects.
    fn objects(&self) -> u32
        ensures count { result ≡ count self.now }
        ensures roots { All (λ o. o < result) (roots self.now) }
        ensures pairs { All (λ p. (p.0 < result) × (p.1 < result)) (pairs self.now) };
}
