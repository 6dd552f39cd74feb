// What holds of all lists in order by a key.
//
// `cmp` is a total order of keys that ties only equal ones, and `key` gives an element's key.
ghost use Rattle.std.specs.Prelude.{◌≡◌, ◌↔◌, ℕ, Bool, List, [], Option, Some, None, All, Contains, IsTrue, sum_by, filter_map, if◌then◌else◌};
ghost use Rattle.std.specs.List.{list_all};
ghost use Rattle.std.specs.List.Sorted.{IsStrictlySortedBy};
ghost use Rattle.std.specs.Ordering.{eq_by_cmp};
ghost use Rattle.std.specs.declared.cmp.Ordering.{Ordering};
ghost use Rattle.keyed_lists.specs.Given.{passes_or_none, adds_or_none};
ghost use Rattle.keyed_lists.specs.Keyed.{IsInOrder, rises, find_key, with_one};
ghost use Rattle.keyed_lists.specs.Laws.{IsKeyOrder, IsKeyed};

/// What holds of look-ups and of one element more.
///
/// Keys strictly rise where each is below the next. What is found is an element with the key; lists that answer alike are one; one element more keeps
/// the order and is found at its own key alone.
pub fn keyed_laws<X, K>()
    ensures rises { (cmp : K → K → Ordering) → IsKeyOrder cmp → (keys : List K)
        → IsTrue (rises cmp keys) ↔ IsStrictlySortedBy cmp keys }
    ensures found { (cmp : K → K → Ordering) (key : X → K) → IsKeyOrder cmp → (xs : List X)
        → IsInOrder cmp key xs
        → (k : K) (x : X) → (find_key cmp key xs k ≡ Some x) ↔ (Contains xs x × (key x ≡ k)) }
    ensures same { (cmp : K → K → Ordering) (key : X → K) → IsKeyOrder cmp → (xs ys : List X)
        → IsInOrder cmp key xs → IsInOrder cmp key ys
        → ((k : K) → find_key cmp key xs k ≡ find_key cmp key ys k) → xs ≡ ys }
    ensures in_order { (cmp : K → K → Ordering) (key : X → K) → IsKeyOrder cmp → (xs : List X)
        → IsInOrder cmp key xs
        → (x : X) → IsInOrder cmp key (with_one cmp key xs x) }
    ensures one_more { (cmp : K → K → Ordering) (key : X → K) → IsKeyOrder cmp
        → (xs : List X) (x : X)
        → find_key cmp key xs (key x) ≡ None → (k : K)
        → find_key cmp key (with_one cmp key xs x) k
        ≡ (if eq_by_cmp cmp (key x) k then Some x else find_key cmp key xs k) }
{}

/// What holds of the list of what is given at keys that rise.
///
/// It is in order, and is looked up as it was given; each list in order is what its look-ups give at
/// keys among which its own are; what holds of each element and sums over them go over to the keys.
pub fn given_laws<X, K>()
    ensures in_order { (cmp : K → K → Ordering) (key : X → K) → IsKeyOrder cmp
        → (given : K → Option X) → IsKeyed key given
        → (keys : List K) → IsStrictlySortedBy cmp keys
        → IsInOrder cmp key (filter_map given keys) }
    ensures found { (cmp : K → K → Ordering) (key : X → K) → IsKeyOrder cmp → (given : K → Option X)
        → IsKeyed key given
        → (keys : List K) → IsStrictlySortedBy cmp keys → (k : K) → Contains keys k
        → find_key cmp key (filter_map given keys) k ≡ given k }
    ensures whole { (cmp : K → K → Ordering) (key : X → K) → IsKeyOrder cmp → (keys : List K)
        → IsStrictlySortedBy cmp keys
        → (xs : List X) → IsInOrder cmp key xs → All (λ x. Contains keys (key x)) xs
        → xs ≡ filter_map (find_key cmp key xs) keys }
    ensures each { (given : K → Option X) (test : X → Bool) (keys : List K)
        → list_all test (filter_map given keys)
        ≡ list_all (λ k. passes_or_none test (given k)) keys }
    ensures sum { (given : K → Option X) (cost : X → ℕ) (keys : List K)
        → sum_by cost (filter_map given keys) ≡ sum_by (λ k. adds_or_none cost (given k)) keys }
{}
