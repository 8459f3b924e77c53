// Each function promises a theorem on the definitions, and does nothing.
ghost use Rattle.term_joins.specs.Laws.{BindingsAreAll, BindingsRestOnFinds};

/// The bindings of patterns in a graph are all assignments of just their variables under which each pattern stands there
/// (SPARQL 1.1 Query, section 18.3), each once, ascending.
pub fn bindings_are_all()
    ensures { BindingsAreAll }
{}

/// Graphs with the same triples for which the patterns ask, whatever their variables stand for, have the same bindings.
pub fn bindings_rest_on_finds()
    ensures { BindingsRestOnFinds }
{}
