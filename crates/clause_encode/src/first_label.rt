//! The first target of a flow statement that is a label.
ghost use Rattle.std.specs.Prelude.{◌≡◌, ◌<◌, ◌^◌, length, Some, slice_get};
ghost use Rattle.flow_graph.specs.Targets.{HasLabel};
ghost use Rattle.placement_clauses.specs.FirstLabel.{first_real, first_label};

/// The first target that is a label, and its outcome.
#[derive(Clone, Copy)]
pub(crate) struct FirstLabel {
    /// The outcome, from 0.
    pub outcome: u32,
    /// The label, from 0.
    pub label: u32,
}

/// The first target that is a label, and its outcome.
pub(crate) fn first_label_of(targets: &[Option<u16>]) -> FirstLabel
    requires label { HasLabel targets.now }
    requires few { length targets.now < 2 ^ 32 }
    ensures outcome { result.outcome ≡ first_real targets.now }
    ensures label { result.label ≡ first_label targets.now }
    ensures there { slice_get targets.now result.outcome ≡ Some (Some result.label) }
{
    for (outcome, target) in targets.iter().enumerate() {
        if let Some(label) = target {
            return FirstLabel {
                outcome: outcome as u32,
                label: u32::from(*label),
            };
        }
    }
    unreachable!()
}
