//! Worked procedures.

ghost use Rattle.procedure_expand.specs.WorkedProcedures.{MayBeCalled};

/// Procedures that meet all that is asked of those that may be called.
pub fn worked_procedures()
    ensures { MayBeCalled }
{}
