// A state in range, as a type: what a turn, a run and `ready` go on with once a check has passed.
ghost use Rattle.machine.specs.Range.{Valid};

use crate::State;

// A state in range, which a check or a proof has shown. A known task of it is no type too: three functions take one, and one clause says it.
#[derive(Clone, Copy)]
pub struct ValidState {
    pub state: State,
    pub ghost valid: { Valid state },
}
