//! Worked examples of the meaning, which the check computes.
ghost use Rattle.bw_meaning.specs.ExpressionExamples.{NodeExamples, OperatorExamples, FunctionExamples, PlugExamples};
ghost use Rattle.bw_meaning.specs.FaultExamples.{UnitExamples, NumberFaultExamples, SizeFaultExamples, PageFaultExamples};
ghost use Rattle.bw_meaning.specs.StatementExamples.{StepExamples, ChoiceExamples, LoopExamples, ShowExamples};
ghost use Rattle.bw_meaning.specs.TurnExamples.{PickExamples, LoopTurnExamples};

/// What expressions give, one example for each sort, with the units that are left.
pub fn expressions()
    ensures nodes { NodeExamples }
    ensures operators { OperatorExamples }
    ensures functions { FunctionExamples }
    ensures plugs { PlugExamples }
{}

/// What statements do, one example for each sort.
pub fn statements()
    ensures steps { StepExamples }
    ensures choices { ChoiceExamples }
    ensures loops { LoopExamples }
    ensures shows { ShowExamples }
{}

/// How a turn fails, one example for each fault.
pub fn faults()
    ensures units { UnitExamples }
    ensures numbers { NumberFaultExamples }
    ensures sizes { SizeFaultExamples }
    ensures pages { PageFaultExamples }
{}

/// What turns show and cost.
pub fn turns()
    ensures picks { PickExamples }
    ensures loops { LoopTurnExamples }
{}
