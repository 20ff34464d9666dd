// The state after a row, and how a run ends.
ghost use Rattle.std.specs.Prelude.{◌≡◌};
ghost use Rattle.calculus.specs.Run.{outcome_of};
ghost use Rattle.stepper.specs.States as states;

use crate::{StepState, StepTurn};
use calculus::{End, Halt, Outcome};
use cells::Cell;
use yields::{Hint, Yield};

impl StepState {
    // Another value on top, and the next row.
    pub(crate) fn topped(self, value: u64, code: u64) -> StepState
        ensures { result ≡ states.topped self value code }
    {
        StepState {
            // No row stands behind the last number, so this does not wrap there.
            row: self.row.wrapping_add(1),
            value,
            code,
            ..self
        }
    }

    // So many values on the stack, and so many bound.
    pub(crate) fn sized(self, height: usize, lets: usize) -> StepState
        ensures { result ≡ states.resized self height lets }
    {
        StepState {
            height,
            lets,
            ..self
        }
    }

    // The row that was looked at lies inside an unchecked block, or not.
    pub(crate) fn looked(self, inside: bool) -> StepState
        ensures { result ≡ states.looked self inside }
    {
        StepState { inside, ..self }
    }

    // Another place for malloc to start to look.
    pub(crate) fn hinted(self, size: usize, from: usize) -> StepState
        ensures { result ≡ states.hinted self size from }
    {
        StepState {
            hint: Hint { size, from },
            ..self
        }
    }

    // One step more. Below the limit this does not wrap.
    pub(crate) fn counted(self) -> StepState
        ensures { result ≡ states.counting self }
    {
        StepState {
            steps: self.steps.wrapping_add(1),
            first: self.first_now(),
            ..self
        }
    }

    // The number of the first unchecked step, where the next one is counted too.
    fn first_now(self) -> u64
        ensures { result ≡ states.first_now self }
    {
        if self.first == 0 && self.inside {
            self.steps.wrapping_add(1)
        } else {
            self.first
        }
    }

    // What a node gives is on top, a step later.
    pub(crate) fn settle(self, limit: u64, given: Yield) -> StepTurn
        ensures { result ≡ states.settled_by limit self given }
    {
        match given {
            Yield::Gives { value, code } => self.topped(value, code).count_within(limit),
            Yield::Halts(why) => self.halt(limit, why),
            Yield::Blocked => self.stuck(),
        }
    }

    // A step, or More where the limit forbids it.
    pub(crate) fn count_within(self, limit: u64) -> StepTurn
        ensures { result ≡ states.count_within limit self }
    {
        if limit <= self.steps {
            self.more()
        } else {
            StepTurn::Steps(self.counted())
        }
    }

    // The whole expression is the value on top.
    pub(crate) fn done(self) -> StepTurn
        ensures { result ≡ states.ends_value self }
    {
        let cell = Cell {
            value: self.value,
            kind: self.code.into(),
        };
        StepTurn::Ends(self.outcome(End::Value(cell)))
    }

    // "Being Stuck is not" a step, and is told at the limit.
    pub(crate) fn stuck(self) -> StepTurn
        ensures { result ≡ states.ends_stuck self }
    {
        StepTurn::Ends(Outcome {
            end: End::Stuck,
            steps: self.steps,
            first: self.first_now(),
        })
    }

    // "A halt is itself a step."
    pub(crate) fn halt(self, limit: u64, why: Halt) -> StepTurn
        ensures { result ≡ states.ends_halt limit self why }
    {
        if limit <= self.steps {
            self.more()
        } else {
            StepTurn::Ends(self.counted().outcome(End::Halted(why)))
        }
    }

    // The limit forbids the next step.
    pub(crate) fn more(self) -> StepTurn
        ensures { result ≡ states.ends_more self }
    {
        StepTurn::Ends(self.outcome(End::More))
    }

    // The run ends like this, after the steps counted.
    pub(crate) fn outcome(self, end: End) -> Outcome
        ensures { result ≡ outcome_of end self.steps self.first }
    {
        Outcome {
            end,
            steps: self.steps,
            first: self.first,
        }
    }
}
