ghost use Rattle.np_types.specs.Laws.{FollowsTable, Reflexive, Transitive, Antisymmetric, KeepsNodes, KeepsPrintable};

/// Subtyping is what its table says, and a partial order. Types of which one is below the other have equally
/// many nodes, and what is below a printable type is printable.
pub fn law_subtyping()
    ensures table { FollowsTable }
    ensures reflexive { Reflexive }
    ensures transitive { Transitive }
    ensures antisymmetric { Antisymmetric }
    ensures nodes { KeepsNodes }
    ensures printable { KeepsPrintable }
{}
