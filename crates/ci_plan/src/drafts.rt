//! Plans that are being made: their steps and their numbers.
ghost use Rattle.std.specs.Prelude.{◌≡◌, ◌≤◌, [], length, IfSome, IsTrue};
ghost use Rattle.ci_plan.specs.private.Drafts.{Grows, HasNumber, IsAdded, IsDraft};
ghost use Rattle.ci_plan.specs.private.Fusions.{IsReplaced};
ghost use Rattle.ci_plan.specs.private.Steps.{IsStep};

use crate::steps::Step;
use std::marker::Model;

/// How many words a plan has.
pub(crate) const WORDS: usize = 64;

/// How many inputs a module has at most. Their words are the first ones.
pub(crate) const INPUTS: usize = 5;

/// A row of steps, and the words that they begin with: those of the inputs, then those that the steps make, one behind
/// the other, and at the end the numbers, which stand below `top` before the first step.
#[derive(Drop)]
pub(crate) struct Draft {
    words: [u64; WORDS],
    top: u8,
    lowest: u8,
    steps: [Step; WORDS],
    count: u8,
}

impl Model for Draft {
    ghost use Rattle.std.specs.Prelude.{take, ◌≤◌};
    ghost use Rattle.ci_plan.specs.private.Drafts.{Draft, IsDraft};

    ghost Value = { Draft };

    ghost view = { λ d. record { words = d.words; lowest = d.lowest; steps = take d.count d.steps } };

    ghost invariant = { λ d.
        IsDraft (record { words = d.words; lowest = d.lowest; steps = take d.count d.steps }) × (d.count ≤ 64) × (d.top ≤ 64) };
}

impl Draft {
    /// No steps and no numbers, of which each will stand below the top.
    pub(crate) fn new(top: u8) -> Draft
        requires some { 5 ≤ top }
        requires few { top ≤ 64 }
        ensures draft { IsDraft result }
        ensures steps { result.steps ≡ [] }
    {
        Draft {
            words: [0; WORDS],
            top,
            lowest: top,
            steps: [Step::And(0, 0); WORDS],
            count: 0,
        }
    }

    /// The words before the first step.
    pub(crate) fn words(&self) -> &[u64; WORDS]
        ensures words { result.now ≡ self.now.words }
        ensures draft { IsDraft self.now }
    {
        &self.words
    }

    /// The steps.
    pub(crate) fn steps(&self) -> &[Step]
        ensures steps { result.now ≡ self.now.steps }
        ensures draft { IsDraft self.now }
    {
        &self.steps[..usize::from(self.count)]
    }

    /// The number that stands at the place, if one does.
    pub(crate) fn number_at(&self, place: u8) -> Option<u64>
        ensures { IfSome result (λ n. HasNumber self.now place n) }
    {
        if place >= self.lowest && place < self.top {
            Some(self.words[usize::from(place)])
        } else {
            None
        }
    }

    /// Whether the number 0 stands at the place.
    pub(crate) fn is_zero(&self, place: u8) -> bool
        ensures { IsTrue result → HasNumber self.now place 0 }
    {
        match self.number_at(place) {
            Some(n) => n == 0,
            None => false,
        }
    }

    /// A place at which the number stands already.
    fn place_of(&self, value: u64) -> Option<u8>
        ensures { IfSome result (λ place. HasNumber self.now place value) }
    {
        for place in self.lowest..self.top {
            if self.words[usize::from(place)] == value {
                return Some(place);
            }
        }
        None
    }

    /// The place of the number. None: there is no room.
    pub(crate) fn number(&mut self, value: u64) -> Option<u8>
        ensures grows { IfSome result (λ _. Grows self.old self.new) }
        ensures number { IfSome result (λ place. HasNumber self.new place value) }
    {
        if let Some(place) = self.place_of(value) {
            return Some(place);
        }
        if INPUTS + usize::from(self.count) < usize::from(self.lowest) {
            self.lowest -= 1;
            self.words[usize::from(self.lowest)] = value;
            Some(self.lowest)
        } else {
            None
        }
    }

    /// Adds the step. The result is the place of its word. None: there is no room.
    pub(crate) fn step(&mut self, step: Step) -> Option<u8>
        requires { IsStep 64 step }
        ensures grows { IfSome result (λ _. Grows self.old self.new) }
        ensures added { IfSome result (λ place. IsAdded self.old self.new place step) }
    {
        let place = INPUTS + usize::from(self.count);
        if place < usize::from(self.lowest) {
            self.steps[usize::from(self.count)] = step;
            self.count += 1;
            Some(place as u8)
        } else {
            None
        }
    }

    /// Puts the step in place of the last ones, so many. The result is the place of its word.
    pub(crate) fn replace(&mut self, many: u8, step: Step) -> u8
        requires some { 1 ≤ many }
        requires few { many ≤ length self.old.steps }
        requires is_step { IsStep 64 step }
        ensures draft { IsDraft self.new }
        ensures replaced { IsReplaced self.old self.new many result step }
    {
        let count = self.count - many;
        self.steps[usize::from(count)] = step;
        self.count = count + 1;
        INPUTS as u8 + count
    }
}
