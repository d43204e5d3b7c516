ghost use Rattle.std.specs.Prelude.{◌≡◌, ℕ, Bool, IfErr, IfOk, Ok};
ghost use Rattle.bayou_print.specs.Turns.{EndsWriting};
ghost use Rattle.bayou_socket_run.specs.Faults.{fault_of_fleet};
ghost use Rattle.bayou_socket_run.specs.Inner.Faults.{IsPhaseFault};

use bayou_fleet::FleetFault;
use bayou_print::RunFault;

/// What a fault of the servers of a run is reported as.
pub(crate) fn fault_of(fleet: FleetFault) -> RunFault
    ensures same { result ≡ fault_of_fleet fleet }
    ensures phase { IsPhaseFault result }
    ensures writes { (fails : Bool) (turns : ℕ) → EndsWriting fails turns result }
{
    match fleet {
        FleetFault::Memory => RunFault::Memory,
        FleetFault::Network => RunFault::Network,
    }
}

/// What was had of the servers of a run, or the fault that the run ends with.
pub(crate) fn in_run<A>(had: Result<A, FleetFault>) -> Result<A, RunFault>
    ensures same { IfOk result (λ value. had ≡ Ok value) }
    ensures fault { IfErr result IsPhaseFault }
    ensures writes { IfErr result (λ fault. (fails : Bool) (turns : ℕ) → EndsWriting fails turns fault) }
{
    match had {
        Ok(value) => Ok(value),
        Err(fleet) => Err(fault_of(fleet)),
    }
}
