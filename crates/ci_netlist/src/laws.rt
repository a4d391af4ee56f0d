//! What holds of all netlists and of all bytes. The functions do nothing; their contracts are the laws.
ghost use Rattle.ci_netlist.specs.Laws.{ValueExists, ValueIsOne, TextIsOne, NetlistsAreOne};
ghost use Rattle.ci_netlist.specs.Laws.{FaultIsOne, TextsHaveNoFault};

/// A netlist has results at each list of values of its inputs, and no others.
pub fn netlists_have_values()
    ensures some { ValueExists }
    ensures one { ValueIsOne }
{}

/// A list of netlists has one text, and a text has one list.
pub fn texts_are_one()
    ensures text { TextIsOne }
    ensures netlists { NetlistsAreOne }
{}

/// Bytes have one fault at most, and a text has none.
pub fn faults_are_one()
    ensures one { FaultIsOne }
    ensures none { TextsHaveNoFault }
{}
