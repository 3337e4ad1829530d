//! A law, as the contract of a function that does nothing: what holds after every log of a node.
ghost use Rattle.lr_nodes.specs.Orderly.{NodesAreOrderly};

/// After every log at most one stripe is of a name and index, and the stripes are at most the capacity.
pub fn nodes_are_orderly()
    ensures { NodesAreOrderly }
{}
