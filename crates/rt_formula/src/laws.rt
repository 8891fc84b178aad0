//! Laws on growth, as the contracts of functions without code.

ghost use Rattle.rt_formula.specs.Laws.{OlderStay, TakenBack};

/// A node stays a node, and keeps its value, as entries are added.
pub fn older_nodes_stay()
    ensures { OlderStay }
{}

/// To truncate to the nodes that there were undoes all growth since.
pub fn growth_is_taken_back()
    ensures { TakenBack }
{}
