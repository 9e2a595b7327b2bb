//! What the labels of a drawing are.

ghost use Rattle.cfarm_sim_svg_shapes.specs.Labels.{LabelsAreLines};

/// What stands outside of the tags of a drawing is what `cfarm_sim` prints of the same calls.
pub fn labels_are_lines()
    ensures { LabelsAreLines }
{}
