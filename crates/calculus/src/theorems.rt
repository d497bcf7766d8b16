ghost use Rattle.calculus.specs.Theorems.{Substitution, Progress, Stepping, Preservation, SilentHere, SheetStays, StartTyped, RunKeeps, Safety, AnswerTyped};
ghost use Rattle.calculus.specs.Simulation.{Simulation, RunSimulation, StartMeans, StatesStand, MachineSafety};
ghost use Rattle.calculus.specs.Checker.{CheckDecides, JudgeRecurs, TypeRecurs};
ghost use Rattle.calculus.specs.Run.{ExecuteCounts, NeverBroken, StaysWithin, StartsWithin, TouchedOnce, RunsJoin};
ghost use Rattle.calculus.specs.Marks.{MarksStand};
ghost use Rattle.calculus.specs.Marked.{MarksLaw, LineAlike, MarkedJoin};
ghost use Rattle.calculus.specs.Law.{LogLaw, LineStands, RunSettled, CallsJoin};

// A typed binding put in keeps types.
pub fn substitution_stands()
    ensures { Substitution }
{}

// A typed network is done, or exactly one rule fits, and then there is a step, unless a silent register is met.
pub fn progress_stands()
    ensures one { Progress }
    ensures stepping { Stepping }
{}

// Steps keep the network's type and the types of all entries, and look up and touch only where work stands.
pub fn preservation_stands()
    ensures step { Preservation }
    ensures silent { SilentHere }
    ensures sheet { SheetStays }
    ensures run { RunKeeps }
{}

// A started, typed program never gets stuck, and what it answers has its type.
pub fn safety_stands()
    ensures start { StartTyped }
    ensures safe { Safety }
    ensures answer { AnswerTyped }
{}

// The machine's steps and runs are those of the calculus.
pub fn simulation_stands()
    ensures step { Simulation }
    ensures run { RunSimulation }
    ensures start { StartMeans }
    ensures states { StatesStand }
    ensures safe { MachineSafety }
{}

// The checker decides typing, and goes from a row to its parts.
pub fn checking_decides()
    ensures decides { CheckDecides }
    ensures terms { JudgeRecurs }
    ensures types { TypeRecurs }
{}

// Runs count their steps, stop for the reason that they give, stay within the limits, and mark each register touched once; their
// budgets add up, and marks tell what they touched.
pub fn runs_stand()
    ensures counts { ExecuteCounts }
    ensures whole { NeverBroken }
    ensures within { StaysWithin }
    ensures start { StartsWithin }
    ensures touched { TouchedOnce }
    ensures joins { RunsJoin }
    ensures marks { MarksStand }
{}

// The law of logs, and that the budgets of calls add up.
pub fn law_stands()
    ensures log { LogLaw }
    ensures line { LineStands }
    ensures settled { RunSettled }
    ensures joins { CallsJoin }
{}

// A machine that holds marks says and does, line by line, what the one that holds the list of registers touched says and does; and its
// budgets add up.
pub fn marks_stand()
    ensures law { MarksLaw }
    ensures line { LineAlike }
    ensures joins { MarkedJoin }
{}
