// The state after a transition, and how a run ends.
ghost use Rattle.std.specs.Prelude.{◌≡◌, ◌^◌, ◌<◌};
ghost use Rattle.calculus.specs.Run.{outcome_of};
ghost use Rattle.machine.specs.States as states;

use crate::{CodedValue, Focus, State, Turn};
use calculus::{End, Halt, Outcome};
use cells::Cell;
use std::ops::ControlFlow;
use yields::Yield;

// `steps < 2 ^ 63` is no field of the type: a step would have to keep the bound, and only the run, which counts its turns, knows it.
impl State {
    // A value is in focus; no kind has code 0, which is left to the number of a node.
    pub(crate) fn with_value(self, value: u64, code: u64) -> State
        ensures { result ≡ states.with_value self value code }
    {
        let focus = if code == 0 {
            Focus::Node(value)
        } else {
            Focus::Value(CodedValue { value, code })
        };
        State { focus, ..self }
    }

    // The number of the first unchecked step, where the next one, which has that number, is counted too.
    fn first_unchecked(self, next: u64) -> u64
        ensures { result ≡ states.first_told next self.first self.inside }
    {
        if self.first == 0 && self.inside {
            next
        } else {
            self.first
        }
    }

    // A step, or More where the limit forbids it.
    pub(crate) fn step_within(self, limit: u64) -> Turn
        ensures { result ≡ states.step_within limit self }
    {
        if limit <= self.steps {
            return ControlFlow::Break(self.outcome(End::More));
        }
        let next = self.steps + 1;
        ControlFlow::Continue(State {
            steps: next,
            first: self.first_unchecked(next),
            ..self
        })
    }

    // What a node gives is in focus, a step later.
    pub(crate) fn contracted(self, limit: u64, given: Yield) -> Turn
        requires { self.steps < 2 ^ 63 }
        ensures { result ≡ states.contracted limit self given }
    {
        match given {
            Yield::Gives { value, code } => self.with_value(value, code).step_within(limit),
            Yield::Halts(why) => self.halt(limit, why),
            Yield::Blocked => self.stuck(),
        }
    }

    // The whole expression is this value.
    pub(crate) fn done(self, v: CodedValue) -> Turn
        ensures { result ≡ states.done self v }
    {
        ControlFlow::Break(self.outcome(End::Value(v.into())))
    }

    // "Being Stuck is not" a step, and is told at the limit.
    pub(crate) fn stuck(self) -> Turn
        requires { self.steps < 2 ^ 63 }
        ensures { result ≡ states.stuck self }
    {
        let told = State {
            first: self.first_unchecked(self.steps + 1),
            ..self
        };
        ControlFlow::Break(told.outcome(End::Stuck))
    }

    // "A halt is itself a step."
    pub(crate) fn halt(self, limit: u64, why: Halt) -> Turn
        ensures { result ≡ states.halt limit self why }
    {
        let taken = self.step_within(limit)?;
        ControlFlow::Break(taken.outcome(End::Halted(why)))
    }

    // The run ends so, with the steps counted.
    pub(crate) fn outcome(self, end: End) -> Outcome
        ensures { result ≡ outcome_of end self.steps self.first }
    {
        Outcome {
            end,
            steps: self.steps,
            first: self.first,
        }
    }
}

// The cell of a value with the code of its kind.
impl From<CodedValue> for Cell {
    ghost from_gives = { λ v c. c ≡ states.cell_of v };

    fn from(v: CodedValue) -> Cell {
        Cell {
            value: v.value,
            kind: v.code.into(),
        }
    }
}
