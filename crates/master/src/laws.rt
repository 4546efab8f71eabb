// The laws of every session, as a theorem about the definitions that the calls are equal to.
ghost use Rattle.master.specs.FromPort.{LawsFromPort};
ghost use Rattle.master.specs.Rows.{RowDetermined};
ghost use Rattle.master.specs.Stands.{SessionLaws};

// After every row of calls on a fresh master and its empty port the five laws of a session stand, and the record that
// they speak of is determined by what the caller sees. So it is on a port that holds frames already, and of the trace.
pub fn session_laws()
    ensures laws { SessionLaws }
    ensures from_port { LawsFromPort }
    ensures determined { RowDetermined }
{}
