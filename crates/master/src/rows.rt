// Whole sessions: a row of calls on a fresh master.
ghost use Rattle.std.specs.Prelude.{◌≡◌, map};
ghost use Rattle.frames.specs.Contents.{content_of};
ghost use Rattle.sheet.specs.Sheets.{lines_of};
ghost use Rattle.master.specs.Masters.{machine_by, begun};
ghost use Rattle.master.specs.Rows.{call_of, shown_of, shown_all, after_all, steps_all, trace_in};
ghost use Rattle.master.specs.FromPort.{StandsFrom};

use crate::calls::Exchange;
use crate::nmt_master::Master;
use ports::port::Port;
use sheet::Sheet;

// What a row of calls leaves: the master with its port, and what it says of Go.
#[derive(Drop)]
pub struct Session<P> {
    pub master: Master<P>,
    pub go: bool,
}

// Makes a master of the sheet and the port, and makes the calls of the row on it, one after the other. The answers are
// written beside them.
pub fn run_session<P: Port>(sheet: Sheet, port: P, row: &mut [Exchange]) -> Session<P>
    ensures calls { map call_of row.new ≡ map call_of row.old }
    ensures answers { map shown_of row.new ≡ shown_all (map call_of row.old) (begun P.Port sheet port) }
    ensures state { machine_by P.Port result.master ≡ after_all (map call_of row.old) (begun P.Port sheet port) }
    ensures trace { trace_in (P.most port) (map content_of (P.waiting port)) (map shown_of row.new) (map content_of (P.waiting result.master.port)) ≡ steps_all (map call_of row.old) (begun P.Port sheet port) }
    ensures stands { StandsFrom (lines_of sheet) (map content_of (P.waiting port)) (trace_in (P.most port) (map content_of (P.waiting port)) (map shown_of row.new) (map content_of (P.waiting result.master.port))) (map content_of (P.waiting result.master.port)) result.go }
{
    let mut master = Master::new(sheet, port);
    for exchange in row {
        exchange.answer = master.answer(exchange.call);
    }
    let go = master.go();
    Session { master, go }
}
