//! What holds of all graphs, and of small ones.
ghost use Rattle.std.specs.Prelude.{◌≡◌, ◌↔◌, ℕ, Bool, List, [], ◌∷◌, Option, Some, None, IsSome};
ghost use Rattle.std.specs.Prelude.{IsTrue, All, Contains, true, false, sum_by, filter_map};
ghost use Rattle.std.specs.Prelude.{if◌then◌else◌};
ghost use Rattle.std.specs.List.{list_all};
ghost use Rattle.std.specs.Ordering.{eq_by_cmp};
ghost use Rattle.keyed_lists.specs.OfVariantValues.Texts.{byte_cmp};
ghost use Rattle.keyed_lists.specs.OfReachability.Paths.{Path};
ghost use Rattle.keyed_lists.specs.Given.{passes_or_none, adds_or_none};
ghost use Rattle.graph_core.specs.declared.node.Node.{Node};
ghost use Rattle.graph_core.specs.declared.node.Edge.{Edge};
ghost use Rattle.graph_core.specs.Graphs.{Text, Content, IsGraph, is_graph, HasNode, ends_of};
ghost use Rattle.graph_core.specs.Graphs.{pair_cmp, node_of, edge_of, provider_of, edges_from};
ghost use Rattle.graph_core.specs.Graphs.{with_node, with_edge, with_provider};
ghost use Rattle.graph_core.specs.Given.{Given, IsGiven, AreNames, graph_by};
ghost use Rattle.graph_core.specs.Paths.{JoinedIn, reaches_in};
ghost use Rattle.graph_core.specs.Rows.{node_named, edge_between, row_of_three};

/// What holds of graphs: their look-ups make them what they are, and one thing more is found at its
/// own key alone.
pub fn graph_laws()
    ensures tells { (g : Content) → IsTrue (is_graph g) ↔ IsGraph g }
    ensures same { (a b : Content) → IsGraph a → IsGraph b
        → ((name : Text) → node_of a name ≡ node_of b name)
        → ((parent child : Text) → edge_of a parent child ≡ edge_of b parent child)
        → ((name : Text) → provider_of a name ≡ provider_of b name) → a ≡ b }
    ensures found { (g : Content) (name : Text) (node : Node) → IsGraph g
        → (node_of g name ≡ Some node) ↔ (Contains g.nodes node × (node.name ≡ name)) }
    ensures has { (g : Content) (name : Text) → HasNode g name ↔ IsSome (node_of g name) }
    ensures node { (g : Content) (node : Node) (name : Text) → node_of g node.name ≡ None
        → node_of (with_node g node) name
        ≡ (if eq_by_cmp byte_cmp node.name name then Some node else node_of g name) }
    ensures edge { (g : Content) (edge : Edge) (parent child : Text)
        → edge_of g edge.parent edge.child ≡ None
        → edge_of (with_edge g edge) parent child
        ≡ (if eq_by_cmp pair_cmp (ends_of edge) (parent, child) then Some edge else edge_of g
        parent child) }
    ensures provider { (g : Content) (name package_name q : Text) → provider_of g name ≡ None
        → provider_of (with_provider g name package_name) q
        ≡ (if eq_by_cmp byte_cmp name q then Some package_name else provider_of g q) }
{}

/// What holds of paths: `reaches_in` tells of them, names are joined where an edge is found, and
/// paths lead from nodes to nodes.
pub fn path_laws()
    ensures decides { (g : Content) (from to : Text) → IsTrue (reaches_in g from to)
        ↔ Path (JoinedIn g) from to }
    ensures joined { (g : Content) (from to : Text) → IsGraph g
        → JoinedIn g from to ↔ ((edge : Edge) × (edge_of g from to ≡ Some edge)) }
    ensures nodes { (g : Content) (from to : Text) → IsGraph g → Path (JoinedIn g) from to
        → HasNode g from × HasNode g to }
{}

/// What holds of graphs by what they have at names.
///
/// What is told is a graph and is found there again. Each graph whose names are among `names` and
/// whose virtuals are among `virtuals` is the one that its look-ups give; so what holds of all its
/// nodes and providers, sums over its nodes, and the edges from a node can be said by names.
pub fn given_laws()
    ensures graph { (names virtuals : List Text) → AreNames names → AreNames virtuals
        → (given : Given) → IsGiven names given
        → IsGraph (graph_by names virtuals given) }
    ensures node { (names virtuals : List Text) → AreNames names → (given : Given)
        → IsGiven names given
        → (name : Text) → Contains names name
        → node_of (graph_by names virtuals given) name ≡ given.node name }
    ensures edge { (names virtuals : List Text) → AreNames names → (given : Given)
        → IsGiven names given
        → (parent child : Text) → Contains names parent → Contains names child
        → edge_of (graph_by names virtuals given) parent child ≡ given.edge parent child }
    ensures provider { (names virtuals : List Text) → AreNames virtuals → (given : Given)
        → (name : Text) → Contains virtuals name
        → provider_of (graph_by names virtuals given) name ≡ given.provider name }
    ensures whole { (names virtuals : List Text) → AreNames names → AreNames virtuals
        → (g : Content) → IsGraph g
        → All (λ node. Contains names node.name) g.nodes
        → All (λ provider. Contains virtuals provider.0) g.providers
        → g ≡ graph_by names virtuals (record {
          node = node_of g;
          edge = edge_of g;
          provider =
              provider_of g;
        }) }
    ensures each_node { (names : List Text) → AreNames names → (g : Content) → IsGraph g
        → All (λ node. Contains names node.name) g.nodes → (test : Node → Bool)
        → list_all test g.nodes ≡ list_all (λ name. passes_or_none test (node_of g name)) names }
    ensures sum_nodes { (names : List Text) → AreNames names → (g : Content) → IsGraph g
        → All (λ node. Contains names node.name) g.nodes → (cost : Node → ℕ)
        → sum_by cost g.nodes ≡ sum_by (λ name. adds_or_none cost (node_of g name)) names }
    ensures each_provider { (virtuals : List Text) → AreNames virtuals → (g : Content) → IsGraph g
        → All (λ provider. Contains virtuals provider.0) g.providers → (test : Text × Text → Bool)
        → list_all test g.providers
        ≡ list_all (λ name. passes_or_none (λ provider. test (name, provider)) (provider_of g name))
        virtuals }
    ensures edges { (names : List Text) → AreNames names → (g : Content) → IsGraph g
        → All (λ node. Contains names node.name) g.nodes → (parent : Text)
        → edges_from g parent ≡ filter_map (edge_of g parent) names }
{}

/// Three nodes in a row: a path leads from the first to the last and not to itself; a node, an edge
/// or a virtual that is there is not added again.
pub fn worked_graphs()
    ensures graph { is_graph row_of_three ≡ true }
    ensures over { reaches_in row_of_three (97 ∷ []) (99 ∷ []) ≡ true }
    ensures itself { reaches_in row_of_three (97 ∷ []) (97 ∷ []) ≡ false }
    ensures node { node_of row_of_three (98 ∷ []) ≡ Some (node_named (98 ∷ [])) }
    ensures no_node { node_of row_of_three (100 ∷ []) ≡ None }
    ensures again { with_node row_of_three (node_named (98 ∷ [])) ≡ row_of_three }
    ensures edges { edges_from row_of_three (98 ∷ []) ≡ edge_between (98 ∷ []) (99 ∷ []) ∷ [] }
{}
