// What holds of all paths, over keys of any kind.
//
// `same` is a test of keys that tells whether two are one, as `==` of numbers and of texts.
ghost use Rattle.std.specs.Prelude.{◌≡◌, ◌↔◌, ◌⊎◌, ◌<◌, ◌==◌, ℕ, Bool, true, false, List, [], ◌∷◌, IsTrue, Contains, length};
ghost use Rattle.reachability.specs.Paths.{Path, IsAcyclic, IsFounded, HasArc, reached, reaches, level, joined, members, rank};
ghost use Rattle.reachability.specs.Laws.{IsExact};

/// What holds of paths over every list of arcs.
///
/// `reaches` tells of them, and `reached` lists where they lead. Two join to one, more arcs keep each,
/// and each begins with an arc and ends with one.
pub fn path_laws<K>()
    ensures decides { (same : K → K → Bool) → IsExact same → (arcs : List (K × K)) (p q : K)
        → IsTrue (reaches same arcs p q) ↔ Path (HasArc arcs) p q }
    ensures listed { (same : K → K → Bool) → IsExact same → (arcs : List (K × K)) (p q : K)
        → Contains (reached same arcs p) q ↔ Path (HasArc arcs) p q }
    ensures through { (arcs : List (K × K)) (p r q : K)
        → Path (HasArc arcs) p r → Path (HasArc arcs) r q → Path (HasArc arcs) p q }
    ensures within { (arcs more : List (K × K)) → ((p q : K) → HasArc arcs p q → HasArc more p q)
        → (p q : K) → Path (HasArc arcs) p q → Path (HasArc more) p q }
    ensures first { (arcs : List (K × K)) (p q : K) → Path (HasArc arcs) p q
        ↔ (HasArc arcs p q ⊎ ((r : K) × HasArc arcs p r × Path (HasArc arcs) r q)) }
    ensures last { (arcs : List (K × K)) (p q : K) → Path (HasArc arcs) p q
        ↔ (HasArc arcs p q ⊎ ((r : K) × Path (HasArc arcs) p r × HasArc arcs r q)) }
{}

/// What holds of arcs without a cycle, and what leaves none.
///
/// Levels rise along each arc, and numbers that do so leave no cycle. Some key of any has no arc from
/// another of them. Where each key inside is a root or has an arc from one inside, it is founded. A key
/// with an arc into it ends a path from one without. A test that asks for an arc to `q`, or for one to
/// a key that passes, tells of paths to `q`.
pub fn level_laws<K>()
    ensures rises { (same : K → K → Bool) → IsExact same → (arcs : List (K × K))
        → IsAcyclic (HasArc arcs)
        → (keys : List K) (p q : K) → Contains keys p → HasArc arcs p q
        → level same arcs keys p < level same arcs keys q }
    ensures below { (same : K → K → Bool) → IsExact same → (arcs : List (K × K))
        → IsAcyclic (HasArc arcs)
        → (keys : List K) (p : K) → Contains keys p → level same arcs keys p < length keys }
    ensures acyclic { (arcs : List (K × K)) (number : K → ℕ)
        → ((p q : K) → HasArc arcs p q → number p < number q) → IsAcyclic (HasArc arcs) }
    ensures first { (same : K → K → Bool) → IsExact same → (arcs : List (K × K))
        → IsAcyclic (HasArc arcs)
        → (key : K) (keys : List K)
        → (p : K) × Contains (key ∷ keys) p
        × ((r : K) → Contains (key ∷ keys) r → HasArc arcs r p → ⊥) }
    ensures founded { (same : K → K → Bool) → IsExact same → (arcs : List (K × K))
        → IsAcyclic (HasArc arcs)
        → (inside root : K → Bool)
        → ((p : K) → IsTrue (inside p) → IsTrue (root p)
        ⊎ ((r : K) × IsTrue (inside r) × HasArc arcs r p))
        → IsFounded (HasArc arcs) inside root }
    ensures arrives { (arcs : List (K × K)) (inside root : K → Bool)
        → IsFounded (HasArc arcs) inside root
        → (p : K) → IsTrue (inside p) → IsTrue (root p) ⊎ ((r : K) × HasArc arcs r p) }
    ensures source { (same : K → K → Bool) → IsExact same → (arcs : List (K × K))
        → IsAcyclic (HasArc arcs)
        → (p r : K) → HasArc arcs r p
        → (s : K) × Path (HasArc arcs) s p × ((x : K) → HasArc arcs x s → ⊥) }
    ensures told { (same : K → K → Bool) → IsExact same → (arcs : List (K × K))
        → IsAcyclic (HasArc arcs)
        → (told : K → Bool) (q : K)
        → ((p : K) → IsTrue (told p) ↔ (HasArc arcs p q
        ⊎ ((r : K) × HasArc arcs p r × IsTrue (told r))))
        → (p : K) → IsTrue (told p) ↔ Path (HasArc arcs) p q }
{}

/// What holds inside the strong components of the possible arcs, of which some are chosen.
///
/// Numbers that rise along the chosen arcs with a way back leave no cycle of chosen ones. Where those
/// have none, ranks are such numbers, and each is below the number of members of its component.
pub fn component_laws<K>()
    ensures joined { (same : K → K → Bool) → IsExact same → (arcs : List (K × K)) (p q : K)
        → IsTrue (joined same arcs p q)
        ↔ ((p ≡ q) ⊎ (Path (HasArc arcs) p q × Path (HasArc arcs) q p)) }
    ensures acyclic { (possible chosen : List (K × K))
        → ((p q : K) → HasArc chosen p q → HasArc possible p q)
        → (number : K → ℕ)
        → ((p q : K) → HasArc chosen p q → Path (HasArc possible) q p → number p < number q)
        → IsAcyclic (HasArc chosen) }
    ensures rises { (same : K → K → Bool) → IsExact same → (possible chosen : List (K × K))
        → IsAcyclic (HasArc chosen) → (keys : List K) (p q : K) → Contains keys p
        → HasArc chosen p q
        → IsTrue (joined same possible p q)
        → rank same possible chosen keys p < rank same possible chosen keys q }
    ensures below { (same : K → K → Bool) → IsExact same → (possible chosen : List (K × K))
        → IsAcyclic (HasArc chosen) → (keys : List K) (q : K) → Contains keys q
        → rank same possible chosen keys q < members same possible keys q }
    ensures alike { (same : K → K → Bool) → IsExact same
        → (arcs : List (K × K)) (keys : List K) (p q : K)
        → IsTrue (joined same arcs p q) → members same arcs keys p ≡ members same arcs keys q }
{}

/// Two arcs in a row; a diamond; a cycle with an arc out of it.
pub fn worked_paths()
    ensures over { reached (λ x y. x == y) ((1, 2) ∷ (2, 3) ∷ []) 1 ≡ 2 ∷ 3 ∷ [] }
    ensures back { reaches (λ x y. x == y) ((1, 2) ∷ (2, 3) ∷ []) 3 1 ≡ false }
    ensures itself { reaches (λ x y. x == y) ((1, 2) ∷ (2, 3) ∷ []) 1 1 ≡ false }
    ensures level { level (λ x y. x == y) ((1, 2) ∷ (2, 3) ∷ []) (1 ∷ 2 ∷ 3 ∷ []) 3 ≡ 2 }
    ensures diamond { reached (λ x y. x == y) ((3, 4) ∷ (2, 4) ∷ (1, 3) ∷ (1, 2) ∷ []) 1 ≡ 3 ∷ 2
        ∷ 4 ∷ 4 ∷ [] }
    ensures around { reaches (λ x y. x == y) ((1, 2) ∷ (2, 1) ∷ (2, 3) ∷ []) 1 1 ≡ true }
    ensures out { reaches (λ x y. x == y) ((1, 2) ∷ (2, 1) ∷ (2, 3) ∷ []) 3 3 ≡ false }
    ensures members { members (λ x y. x == y) ((1, 2) ∷ (2, 1) ∷ (2, 3) ∷ [])
        (1 ∷ 2 ∷ 3 ∷ []) 1 ≡ 2 }
{}
