//! What the effects of operations are.

ghost use Rattle.emit_templates.specs.GraphEffects.{EffectsAreTheGraphs};

/// The effect that the code of an operation has on the machine is what the graph says of the operation.
pub fn effects_are_the_graphs()
    ensures { EffectsAreTheGraphs }
{}
