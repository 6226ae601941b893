//! From a program's text to its graph.

ghost use Rattle.std.specs.Prelude.{◌≤◌, IfSome, length};
ghost use Rattle.flow_graph.specs.Rules.{IsGraph};

use flow_graph::Graph;
use lowered_rules::lowered_graphs_obey;
use program_texts::graph_of_text;
use std::alloc::Global;

/// The graph of the program that a text is of, where there is one; it obeys the rules.
pub fn graph_of(alloc: Global, text: &[u8]) -> Option<Graph>
    requires { length text.now ≤ 65536 }
    ensures { IfSome result (λ g. IsGraph g) }
{
    lowered_graphs_obey();
    match graph_of_text(alloc, text) {
        Ok(g) => Some(g),
        Err(_) => None,
    }
}
