// A turn: what its line does to the state, and the refusals. specs/Turn.antt defines each.
ghost use Rattle.std.specs.Prelude.{◌≡◌, ◌<◌};
ghost use Rattle.machine.specs.Turn as defs;

use crate::valid::ValidState;
use crate::{MAX_TALLY, Move, State, Turned};
use lines::{Act, Effect, rule};
use reason::{Reason, Refusal};

// Whether the answer is moved.
pub(crate) fn is_moved(outcome: Result<Move, Refusal>) -> bool
    ensures { result ≡ defs.is_moved outcome }
{
    matches!(outcome, Ok(Move::Moved(_)))
}

impl Move {
    // The number of what a turn did: 1 moved, 0 waited.
    pub fn number(self) -> u8
        ensures { result ≡ defs.move_number self }
    {
        match self {
            Move::Moved(_) => 1,
            Move::Waited => 0,
        }
    }

    // What a turn answers, by its line's own outcome, whether a move closes a round, and its task's tallies of moves and of waits: the one that
    // the turn would raise must be below its limit.
    pub fn of(act: Act, closed: u8, moves: u32, waits: u32) -> Result<Move, Refusal>
        ensures { result ≡ defs.outcome_of act closed moves waits }
    {
        match act {
            Act::Moves if moves < MAX_TALLY => Ok(Move::Moved(closed)),
            Act::Waits if waits < MAX_TALLY => Ok(Move::Waited),
            Act::Moves | Act::Waits => Err(Reason::TallyLimit.into()),
            Act::Refuses(refusal) => Err(refusal),
        }
    }
}

impl ValidState {
    // What the line of a known task does: what it reads is gathered, and the rule applied.
    pub(crate) fn effect(&self, task: usize) -> Effect
        requires { task < self.now.state.n }
        ensures { result ≡ defs.effect_of self.now.state task }
    {
        let state = &self.state;
        let own = state.tasks[task];
        let looked = own.looked as usize;
        let seen = state.tasks[looked];
        let parents = state.parents;
        let n = state.n as usize;
        rule::effect_of(state.shared(), &parents[..n], task, own, seen)
    }

    // One line of a known task. All that the effect has is stored, whether it moves or waits: where it waits, that is
    // what stood there. Both tallies are stored too: a move adds 1 and 0 to them, a wait 0 and 1. The run's loop
    // makes these steps itself: calling this, it copied the state twice a turn, which missed the bar of speed (docs/DECISIONS.md).
    fn step(self, task: usize) -> Turned
        requires { task < self.state.n }
        ensures { result ≡ defs.step_of self.state task }
    {
        let effect = self.effect(task);
        let act = effect.act;
        let next = effect.task;
        let closed = self.closes(task, next.count);
        let mut state = self.state;
        let moves = state.moves[task];
        let waits = state.waits[task];
        let outcome = Move::of(act, closed, moves, waits);
        let Ok(how) = outcome else {
            return Turned { state, outcome };
        };
        let moved = how.number();
        let write = effect.write;
        state.moves[task] = moves + moved as u32;
        state.waits[task] = waits + (1 - moved) as u32;
        state.tasks[task] = next;
        state.arrivals = write.arrivals(state.arrivals);
        state.sense = write.sense(state.sense);
        let place = write.place(task);
        let there = state.tasks[place];
        state.tasks[place] = write.task(there);
        Turned { state, outcome }
    }
}

impl State {
    // A turn that is refused leaves the state as it was.
    fn refused(self, refusal: Refusal) -> Turned
        ensures { result ≡ defs.refused_turn self refusal }
    {
        Turned {
            state: self,
            outcome: Err(refusal),
        }
    }

    // A turn of a task.
    pub fn turn(self, task: usize) -> Turned
        ensures { result ≡ defs.turn_of self task }
    {
        match self.check() {
            Ok(()) if task < self.n as usize => ValidState { state: self }.step(task),
            Ok(()) => self.refused(Reason::Task.into()),
            Err(refusal) => self.refused(refusal),
        }
    }
}
