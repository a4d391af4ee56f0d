//! Modules made ready.
ghost use Rattle.std.specs.Prelude.{◌≡◌, [], ◌∷◌, IfOk};
ghost use Rattle.ci_verilog.specs.Modules.{IsModule};
ghost use Rattle.ci_verilog.specs.Values.{IsValueOf};

use crate::plans::Plan;
use ci_verilog::{Module, eval};
use std::alloc::{AllocError, Global};
use std::marker::Model;

/// A module that is made ready for many uses. Contracts see the module.
///
/// Where a plan has no room for its wires, the module is evaluated at each use.
#[derive(Drop)]
pub struct Prepared<'a> {
    module: &'a Module,
    plan: Option<Plan>,
}

impl<'a> Model for Prepared<'a> {
    ghost use Rattle.std.specs.Prelude.{IfSome};
    ghost use Rattle.ci_verilog.specs.Modules.{Module};
    ghost use Rattle.ci_plan.specs.private.Plans.{IsPlanOf};

    ghost Value = { Module };

    ghost view = { λ p. p.«module».now };

    ghost invariant = { λ p. IfSome p.plan (IsPlanOf p.«module».now) };
}

impl Prepared<'_> {
    /// The module, made ready. It takes no memory.
    pub fn new(module: &Module) -> Prepared<'_>
        ensures { result ≡ «module».now }
    {
        Prepared {
            module,
            plan: Plan::of(module),
        }
    }

    /// Whether a plan has room for the module's wires, so that a use looks up no name.
    pub fn is_planned(&self) -> bool {
        self.plan.is_some()
    }

    /// The cycles of one use.
    pub fn cycles(&self) -> u32
        ensures { result ≡ self.now.cycles }
    {
        self.module.cycles()
    }

    /// What `eval` gives of the module: the values of y, z and x where the inputs have the values a to e.
    pub fn results(&self, a: u32, b: u32, c: u32, d: u32, e: u32) -> (u32, u32, u32)
        ensures value { IsValueOf self.now (a ∷ b ∷ c ∷ d ∷ e ∷ []) (result.0 ∷ result.1 ∷ result.2 ∷ []) }
        ensures kept { IsModule self.now }
    {
        // That the module is one.
        let _wires = self.module.wires();
        match &self.plan {
            Some(plan) => plan.run([a, b, c, d, e]),
            None => evaluated(self.module, a, b, c, d, e),
        }
    }
}

/// What `eval` gives, by a call: it takes 16 KiB of the stack, which no use of a plan has to take too.
#[inline(never)]
fn evaluated(module: &Module, a: u32, b: u32, c: u32, d: u32, e: u32) -> (u32, u32, u32)
    ensures { IsValueOf «module».now (a ∷ b ∷ c ∷ d ∷ e ∷ []) (result.0 ∷ result.1 ∷ result.2 ∷ []) }
{
    eval(module, a, b, c, d, e)
}

/// The modules, made ready in their order. An Err is out of memory.
pub fn prepare(alloc: Global, modules: &[Module]) -> Result<Vec<Prepared<'_>>, AllocError>
    ensures { IfOk result (λ units. units.items ≡ modules.now) }
{
    let mut units = Vec::new(alloc);
    for module in modules {
        units.push(Prepared::new(module))?;
    }
    Ok(units)
}
