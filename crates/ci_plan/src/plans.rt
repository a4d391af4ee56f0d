//! Whole plans.
ghost use Rattle.std.specs.Prelude.{◌≡◌, ℕ, ◌+◌, ◌%◌, ◌^◌, ◌<◌, ◌≤◌, length, take, All, IfSome, IsTrue};
ghost use Rattle.std.specs.Prelude.{slice_index};
ghost use Rattle.ci_plan.specs.private.Drafts.{IsDraft};
ghost use Rattle.ci_plan.specs.private.Names.{AreHeld};
ghost use Rattle.ci_plan.specs.private.Plans.{FitsIn, IsPlanOf, IsRun, words_of};
ghost use Rattle.ci_plan.specs.private.Steps.{IsStep, words_after};

use crate::drafts::{Draft, INPUTS, WORDS};
use crate::founds::Found;
use crate::fusions::shorten;
use crate::names::Scope;
use crate::steps::{Step, low_bits};
use ci_verilog::Module;

/// The steps of a module, and where its results stand behind them.
#[derive(Drop)]
pub(crate) struct Plan {
    draft: Draft,
    y: u8,
    z: u8,
    x: u8,
    size: Size,
}

/// How many of a plan's words are enough for its runs: the first TINY, SMALL or MIDDLE ones, or all. A run copies no more.
#[derive(Clone, Copy)]
enum Size {
    Tiny,
    Small,
    Middle,
    Whole,
}

const TINY: usize = 8;

const SMALL: usize = 16;

const MIDDLE: usize = 32;

/// How many wires a module with a plan has at most.
const WIRES: usize = 256;

/// Adds the steps of the module's wires, and puts down where these stand. None: there is no room.
fn add_wires(
    module: &Module,
    draft: &mut Draft,
    found: &mut [Option<Found>],
    fuses: bool,
) -> Option<()>
    requires { IsDraft draft.old }
    ensures held { IfSome result (λ _.
        AreHeld «module».now (take (length «module».now.wires.list) found.new) draft.new) }
    ensures few { IfSome result (λ _. length «module».now.wires.list ≤ length found.new) }
    ensures room { length found.new ≡ length found.old }
{
    let wires = module.wires().as_slice();
    if wires.len() > found.len() {
        return None;
    }
    for k in 0..wires.len() {
        let scope = Scope {
            module,
            wires: &found[..k],
        };
        let next = scope.wire(draft, &wires[k])?;
        let place = shorten(draft, found, next, fuses);
        found[k] = Some(place);
    }
    Some(())
}

/// Puts the values of the inputs at their places.
fn open(words: &mut [u64], arguments: [u32; 5])
    requires { 5 ≤ length words.old }
    ensures whole { length words.new ≡ length words.old }
    ensures inputs { (k : ℕ) → k < 5 → slice_index words.new k ≡ slice_index arguments k }
    ensures others { (k : ℕ) → 5 ≤ k → slice_index words.new k ≡ slice_index words.old k }
{
    words[0] = u64::from(arguments[0]);
    words[1] = u64::from(arguments[1]);
    words[2] = u64::from(arguments[2]);
    words[3] = u64::from(arguments[3]);
    words[4] = u64::from(arguments[4]);
}

/// Makes the steps, of which each puts its word behind those before it.
#[inline(always)]
fn make(steps: &[Step], words: &mut [u64])
    requires room { 5 + length steps.now ≤ length words.old }
    requires are_steps { All (IsStep (length words.old)) steps.now }
    ensures { words.new ≡ words_after words.old 5 steps.now }
{
    let mut place = INPUTS;
    for step in steps {
        words[place] = step.value(words);
        place += 1;
    }
}

/// The lowest 32 bits of a word.
fn low_word(word: u64) -> u32
    ensures { result ≡ word % 2 ^ 32 }
{
    low_bits(word, 32) as u32
}

/// Whether all words behind the first ones are 0.
fn are_zeros_from(words: &[u64], first: usize) -> bool
    ensures { IsTrue result → (p : ℕ) → first ≤ p → slice_index words.now p ≡ 0 }
{
    for place in first..words.len() {
        if words[place] != 0 {
            return false;
        }
    }
    true
}

/// Whether the places of the words that the steps are made of are below this one.
fn are_within(steps: &[Step], top: u8) -> bool
    requires { All (IsStep 64) steps.now }
    ensures { IsTrue result → All (IsStep top) steps.now }
{
    for step in steps {
        if !step.is_within(top) {
            return false;
        }
    }
    true
}

/// Whether the first words, so many, are enough for the plan.
fn fits_in(top: u8, draft: &Draft, y: u8, z: u8, x: u8) -> bool
    ensures { IsTrue result → FitsIn top draft.now y z x }
{
    let steps = draft.steps();
    INPUTS + steps.len() <= usize::from(top)
        && are_within(steps, top)
        && are_zeros_from(draft.words(), usize::from(top))
        && y < top
        && z < top
        && x < top
}

/// How many words are enough for the plan.
fn size_of(draft: &Draft, y: u8, z: u8, x: u8) -> Size
    requires draft { IsDraft draft.now }
    requires y { y < 64 }
    requires z { z < 64 }
    requires x { x < 64 }
    ensures { FitsIn (words_of result) draft.now y z x }
{
    if fits_in(TINY as u8, draft, y, z, x) {
        Size::Tiny
    } else if fits_in(SMALL as u8, draft, y, z, x) {
        Size::Small
    } else if fits_in(MIDDLE as u8, draft, y, z, x) {
        Size::Middle
    } else {
        Size::Whole
    }
}

impl Plan {
    /// The plan of the module, with one step in place of several where no name needs what these made. None: there is no
    /// room for its steps.
    pub(crate) fn of(module: &Module) -> Option<Plan>
        ensures { IfSome result (λ plan. IsPlanOf «module».now plan) }
    {
        match Plan::least(module, true) {
            Some(plan) => Some(plan),
            None => Plan::least(module, false),
        }
    }

    /// The plan of the module, of few words if these are enough. None: there is no room for its steps.
    fn least(module: &Module, fuses: bool) -> Option<Plan>
        ensures { IfSome result (λ plan. IsPlanOf «module».now plan) }
    {
        if let Some(plan) = Plan::within(module, TINY as u8, fuses) {
            return Some(plan);
        }
        if let Some(plan) = Plan::within(module, SMALL as u8, fuses) {
            return Some(plan);
        }
        if let Some(plan) = Plan::within(module, MIDDLE as u8, fuses) {
            return Some(plan);
        }
        Plan::within(module, WORDS as u8, fuses)
    }

    /// The plan of the module, whose words stand below the top. None: there is no room for its steps.
    fn within(module: &Module, top: u8, fuses: bool) -> Option<Plan>
        requires some { 5 ≤ top }
        requires few { top ≤ 64 }
        ensures { IfSome result (λ plan. IsPlanOf «module».now plan) }
    {
        let mut found = [None; WIRES];
        let mut draft = Draft::new(top);
        add_wires(module, &mut draft, &mut found, fuses)?;
        let scope = Scope {
            module,
            wires: &found[..module.wires().len()],
        };
        let y = scope.expr(&mut draft, module.y())?;
        let z = scope.expr(&mut draft, module.z())?;
        let x = scope.expr(&mut draft, module.x())?;
        // A test of the whole plan is shorter than a proof that each place of a step stays below the top.
        let size = size_of(&draft, y, z, x);
        Some(Plan {
            draft,
            y,
            z,
            x,
            size,
        })
    }

    /// The values of y, z and x, by a run on a copy of the first words, so many.
    #[inline(always)]
    fn run_on<const N: usize>(&self, arguments: [u32; 5]) -> (u32, u32, u32)
        requires fits { FitsIn N self.now.draft self.now.y self.now.z self.now.x }
        requires few { N ≤ 64 }
        ensures { IsRun self.now arguments result }
    {
        let Some(first) = self.draft.words().first_chunk::<N>() else {
            return (0, 0, 0);
        };
        let mut words = *first;
        open(&mut words, arguments);
        make(self.draft.steps(), &mut words);
        (
            low_word(words[usize::from(self.y)]),
            low_word(words[usize::from(self.z)]),
            low_word(words[usize::from(self.x)]),
        )
    }

    /// The values of y, z and x.
    #[inline(always)]
    pub(crate) fn run(&self, arguments: [u32; 5]) -> (u32, u32, u32)
        requires { FitsIn (words_of self.now.size) self.now.draft self.now.y self.now.z self.now.x }
        ensures { IsRun self.now arguments result }
    {
        match self.size {
            Size::Tiny => self.run_on::<TINY>(arguments),
            Size::Small => self.run_on::<SMALL>(arguments),
            Size::Middle => self.run_on::<MIDDLE>(arguments),
            Size::Whole => self.run_on::<WORDS>(arguments),
        }
    }
}
