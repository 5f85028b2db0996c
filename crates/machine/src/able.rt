// Ready. specs/Ready.antt defines it.
ghost use Rattle.std.specs.Prelude.{◌≡◌};
ghost use Rattle.machine.specs.Ready as defs;

use crate::valid::ValidState;
use crate::{Move, Readied, State, turn};
use reason::Refusal;

impl ValidState {
    // The least task that can move: one whose tally of moves is at its limit can't. Whether it would close a round is not
    // asked. A loop and no `find`: what `effect` requires would be its closure's to show, and that is no plainer.
    fn able(&self) -> Option<usize>
        ensures { Ok result ≡ defs.ready_from self.now.state self.now.state.n 0 }
    {
        let state = &self.state;
        for q in 0..state.n as usize {
            let effect = self.effect(q);
            let act = effect.act;
            let moves = state.moves[q];
            let waits = state.waits[q];
            if turn::is_moved(Move::of(act, 0, moves, waits)) {
                return Some(q);
            }
        }
        None
    }
}

impl State {
    // Who can move, if the state is in range.
    fn asked(self) -> Result<Option<usize>, Refusal>
        ensures { result ≡ (defs.ready_of self).ready }
    {
        self.check()?;
        Ok(ValidState { state: self }.able())
    }

    // Who can move; the state is handed back as it was.
    pub fn ready(self) -> Readied
        ensures { result ≡ defs.ready_of self }
    {
        Readied {
            state: self,
            ready: self.asked(),
        }
    }
}
