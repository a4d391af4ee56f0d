//! Renaming the values of a block.
ghost use Rattle.std.specs.Prelude.{◌≡◌, ℕ, ◌<◌, ◌≤◌, ◌↔◌, false, length, IfOk, IsTrue, MatchOption};
ghost use Rattle.std.specs.FinSet as finite;
ghost use Rattle.ci_isa.specs.Sequences.{nth_insn};
ghost use Rattle.ci_rename.specs.OtherRegisters as fields;
ghost use Rattle.ci_rename.specs.Renaming as terms;
ghost use Rattle.ci_rename.specs.Renaming.{IsFree, IsGoneThrough, IsLeastFree, IsLocal, IsRenamed, IsTied};
ghost use Rattle.ci_rename.specs.private.ValueTests as tests;
ghost use Rattle.ci_rename.specs.private.Passes.{HasLeastFree, IsStep};
ghost use Rattle.ci_rename.specs.private.ValueTests.{IsReadUpTo};

use ci_dfg::{is_live, latest_writer};
use ci_isa::{
    Insn, Reg, destination, is_terminator, reads, reads_register, writes, writes_register,
};
use ci_word::Row;
use std::alloc::{AllocError, Global};

/// A renamed block.
#[derive(Drop)]
pub struct Renamed {
    /// Its instructions.
    pub insns: Vec<Insn>,
    /// How many of its values were renamed.
    pub values: u32,
}

/// Renames the values of a block of at most 256 instructions, after which the registers `live_out` are live.
///
/// The nodes are gone through from first to last. Where the value of a node lives inside the block alone and its
/// register ties it to others, it moves to the least register that the block doesn't use, if there is one.
///
/// An Err is out of memory.
pub fn rename_block(alloc: Global, insns: &[Insn], live_out: Row) -> Result<Renamed, AllocError>
    requires few { length insns.now ≤ 256 }
    ensures { IfOk result (λ renamed. IsRenamed live_out insns.now renamed.insns.items renamed.values) }
{
    let mut pass = Pass {
        insns: Vec::from_slice(alloc, insns)?,
        values: 0,
        free: least_free(insns, &live_out),
    };
    for i in 0..insns.len() {
        pass = gone_through(alloc, pass, &live_out, i)?;
    }
    Ok(Renamed {
        insns: pass.insns,
        values: pass.values,
    })
}

/// A block that is gone through up to some node.
#[derive(Drop)]
struct Pass {
    /// The block as it then is.
    insns: Vec<Insn>,
    /// How many of its values were renamed.
    values: u32,
    /// The least register that is free in it. It is looked for only after a value was renamed.
    free: Option<Reg>,
}

/// Goes through node `i`. An Err is out of memory.
fn gone_through(alloc: Global, pass: Pass, live_out: &Row, i: usize) -> Result<Pass, AllocError>
    requires few { length pass.insns.items ≤ 256 }
    requires there { i < length pass.insns.items }
    requires counted { pass.values ≤ i }
    requires least { HasLeastFree live_out.now pass.insns.items pass.free }
    ensures step { IfOk result (λ next.
        IsStep live_out.now i pass.insns.items pass.values next.insns.items next.values) }
    ensures least { IfOk result (λ next. HasLeastFree live_out.now next.insns.items next.free) }
{
    match renamed_value(alloc, pass.insns.as_slice(), live_out, i, pass.free)? {
        None => Ok(pass),
        Some(insns) => {
            let free = least_free(insns.as_slice(), live_out);
            Ok(Pass {
                insns,
                values: pass.values + 1,
                free,
            })
        }
    }
}

/// Goes through node `i`, where `free` is the least register that is free: the block in which the node's value is
/// renamed, or `None` where it stays. An Err is out of memory.
fn renamed_value(
    alloc: Global,
    insns: &[Insn],
    live_out: &Row,
    i: usize,
    free: Option<Reg>,
) -> Result<Option<Vec<Insn>>, AllocError>
    requires few { length insns.now ≤ 256 }
    requires there { i < length insns.now }
    requires least { HasLeastFree live_out.now insns.now free }
    ensures { IfOk result (λ renamed. MatchOption renamed
        (IsGoneThrough live_out.now insns.now i insns.now 0)
        (λ next. IsGoneThrough live_out.now insns.now i next.items 1)) }
{
    match free {
        None => Ok(None),
        Some(to) => moved_value(alloc, insns, live_out, i, to),
    }
}

/// The same, where this register is the least that is free.
fn moved_value(
    alloc: Global,
    insns: &[Insn],
    live_out: &Row,
    i: usize,
    to: Reg,
) -> Result<Option<Vec<Insn>>, AllocError>
    requires few { length insns.now ≤ 256 }
    requires there { i < length insns.now }
    requires least { IsLeastFree live_out.now insns.now to }
    ensures { IfOk result (λ renamed. MatchOption renamed
        (IsGoneThrough live_out.now insns.now i insns.now 0)
        (λ next. IsGoneThrough live_out.now insns.now i next.items 1)) }
{
    let from = destination(&insns[i]);
    if !is_local(insns, live_out, i, from) {
        return Ok(None);
    }
    if !is_tied(insns, i, from) {
        return Ok(None);
    }
    Ok(Some(with_value_in(alloc, insns, i, from, to)?))
}

/// The block in which the value of node `i` is in another register. An Err is out of memory.
#[tactic(auto, using(crate::proofs::RenamedLists::so_far))]
fn with_value_in(
    alloc: Global,
    insns: &[Insn],
    i: usize,
    from: u8,
    to: Reg,
) -> Result<Vec<Insn>, AllocError>
    requires few { length insns.now ≤ 256 }
    requires there { i < length insns.now }
    requires writes { IsTrue (tests.writes_at insns.now i from) }
    ensures { IfOk result (λ renamed. renamed.items ≡ terms.renamed insns.now i to) }
{
    let value = Value {
        node: i,
        from,
        last: last_reader(insns, i, from),
    };
    let mut renamed = Vec::new(alloc);
    for k in 0..insns.len() {
        renamed.push(renamed_insn(insns, value, to, k))?;
    }
    Ok(renamed)
}

/// The value of a node. It is what the node's register holds behind the node, up to the last node, which is the next to
/// write the register, or the number of nodes where there is none: so a renamed value costs one walk.
#[derive(Clone, Copy)]
struct Value {
    node: usize,
    from: u8,
    last: usize,
}

/// The place up to which an operand in this register has node `i` as its source, which writes it.
fn last_reader(insns: &[Insn], i: usize, register: u8) -> usize
    requires there { i < length insns.now }
    requires writes { IsTrue (tests.writes_at insns.now i register) }
    ensures { IsReadUpTo insns.now i register result }
{
    for k in i + 1..insns.len() {
        if writes_register(&insns[k], register) {
            return k;
        }
    }
    insns.len()
}

/// Instruction `k` of that block.
fn renamed_insn(insns: &[Insn], value: Value, to: Reg, k: usize) -> Insn
    requires up_to { IsReadUpTo insns.now value.node value.from value.last }
    requires there { k < length insns.now }
    ensures { result ≡ terms.renamed_insn insns.now value.node to k }
{
    let read = with_operands(insns, value, to, k);
    if k == value.node {
        with_result(to, &read)
    } else {
        read
    }
}

/// Instruction `k` with the other register in each operand field that has node `i` as its source.
fn with_operands(insns: &[Insn], value: Value, to: Reg, k: usize) -> Insn
    requires up_to { IsReadUpTo insns.now value.node value.from value.last }
    requires there { k < length insns.now }
    ensures { result ≡ fields.with_operands (terms.moved_to insns.now value.node to k) (nth_insn insns.now k) }
{
    let insn = insns[k];
    match insn {
        Insn::Alu { op, rd, rs1, rs2 } => Insn::Alu {
            op,
            rd,
            rs1: moved(insns, value, to, k, rs1),
            rs2: moved(insns, value, to, k, rs2),
        },
        Insn::AluImm { op, rd, rs1, imm } => Insn::AluImm {
            op,
            rd,
            rs1: moved(insns, value, to, k, rs1),
            imm,
        },
        Insn::Jalr { rd, rs1, offset } => Insn::Jalr {
            rd,
            rs1: moved(insns, value, to, k, rs1),
            offset,
        },
        Insn::Branch {
            cond,
            rs1,
            rs2,
            offset,
        } => Insn::Branch {
            cond,
            rs1: moved(insns, value, to, k, rs1),
            rs2: moved(insns, value, to, k, rs2),
            offset,
        },
        Insn::Load {
            kind,
            rd,
            rs1,
            offset,
        } => Insn::Load {
            kind,
            rd,
            rs1: moved(insns, value, to, k, rs1),
            offset,
        },
        Insn::Store {
            width,
            rs1,
            rs2,
            offset,
        } => Insn::Store {
            width,
            rs1: moved(insns, value, to, k, rs1),
            rs2: moved(insns, value, to, k, rs2),
            offset,
        },
        other => other,
    }
}

/// The register that an operand of instruction `k` is in, where the value of the node is in another one.
#[tactic(auto, using(crate::proofs::ReadValues::reads))]
fn moved(insns: &[Insn], value: Value, to: Reg, k: usize, register: Reg) -> Reg
    requires up_to { IsReadUpTo insns.now value.node value.from value.last }
    requires there { k < length insns.now }
    ensures { result ≡ terms.moved_to insns.now value.node to k register }
{
    let _nodes = insns.len();
    if register.number() != value.from {
        return register;
    }
    if k <= value.node {
        return register;
    }
    if value.last < k {
        return register;
    }
    to
}

/// The instruction with another register for its result, if it doesn't end a block.
fn with_result(to: Reg, insn: &Insn) -> Insn
    ensures { result ≡ fields.with_result to insn.now }
{
    match *insn {
        Insn::Alu { op, rs1, rs2, .. } => Insn::Alu {
            op,
            rd: to,
            rs1,
            rs2,
        },
        Insn::AluImm { op, rs1, imm, .. } => Insn::AluImm {
            op,
            rd: to,
            rs1,
            imm,
        },
        Insn::Lui { upper, .. } => Insn::Lui { rd: to, upper },
        Insn::Load {
            kind,
            rs1,
            offset,
            ..
        } => Insn::Load {
            kind,
            rd: to,
            rs1,
            offset,
        },
        other => other,
    }
}

/// The least register that is free.
fn least_free(insns: &[Insn], live_out: &Row) -> Option<Reg>
    ensures { HasLeastFree live_out.now insns.now result }
{
    let used = used_registers(insns);
    for number in 1..32 {
        if is_free(insns, &used, live_out, number) {
            return Reg::new(number);
        }
    }
    None
}

/// Whether the register is free: it is none of those that a node reads or writes, and it isn't live after the block.
fn is_free(insns: &[Insn], used: &Row, live_out: &Row, register: u8) -> bool
    requires some { 0 < register }
    requires named { register < 32 }
    requires used { (r : ℕ) → finite.contains used.now r ≡ tests.is_used insns.now (length insns.now) r }
    ensures { IsTrue result ↔ IsFree live_out.now insns.now register }
{
    let _nodes = insns.len();
    let is_used = used.has(register);
    let is_live = live_out.has(register);
    !is_used & !is_live
}

/// The registers that a node reads or writes.
fn used_registers(insns: &[Insn]) -> Row
    ensures { (r : ℕ) → finite.contains result r ≡ tests.is_used insns.now (length insns.now) r }
{
    let mut used = Row::empty();
    for insn in insns {
        used = used.union(&reads(insn)).union(&writes(insn));
    }
    used
}

/// Whether the value of node `i`, in this register, is local: the node writes the register and doesn't end the block,
/// the value isn't live after the block, and no environment call reads it.
fn is_local(insns: &[Insn], live_out: &Row, i: usize, register: u8) -> bool
    requires few { length insns.now ≤ 256 }
    requires there { i < length insns.now }
    ensures { IsTrue result ↔ IsLocal live_out.now insns.now i register }
{
    let ends = is_terminator(&insns[i]);
    let writes = writes_register(&insns[i], register);
    let live = is_live(insns, i, *live_out);
    let called = is_called(insns, i, register);
    !ends & writes & !live & !called
}

/// Whether an environment call reads the value of node `i`, which writes this register.
fn is_called(insns: &[Insn], i: usize, register: u8) -> bool
    requires few { length insns.now ≤ 256 }
    requires there { i < length insns.now }
    ensures called { IsTrue result → ¬ tests.IsUncalled insns.now i }
    ensures uncalled { IsTrue (tests.writes_at insns.now i register) → result ≡ false → tests.IsUncalled insns.now i }
{
    for k in 0..insns.len() {
        if is_read_by_call(insns, i, register, k) {
            return true;
        }
    }
    false
}

/// Whether the environment call at `k`, if it is one, reads the value of node `i`, which writes this register.
fn is_read_by_call(insns: &[Insn], i: usize, register: u8, k: usize) -> bool
    requires few { length insns.now ≤ 256 }
    requires there { k < length insns.now }
    ensures { result ≡ tests.is_read_by_call insns.now i register k }
{
    let insn = insns[k];
    match insn {
        Insn::Ecall => match latest_writer(insns, register, k) {
            Some(writer) => usize::from(writer) == i && reads_register(&insn, register),
            None => false,
        },
        _ => false,
    }
}

/// Whether the value of node `i` is tied by this register, which it writes: the node reads the register, too, another
/// node writes it, or an earlier one reads it.
fn is_tied(insns: &[Insn], i: usize, register: u8) -> bool
    requires there { i < length insns.now }
    ensures { IsTrue result ↔ IsTied insns.now i register }
{
    for k in 0..insns.len() {
        if ties(insns, i, register, k) {
            return true;
        }
    }
    false
}

/// Whether node `k` ties the value of node `i` by the register.
fn ties(insns: &[Insn], i: usize, register: u8, k: usize) -> bool
    requires { k < length insns.now }
    ensures { result ≡ tests.ties insns.now i register k }
{
    (k <= i && reads_register(&insns[k], register))
        | (k != i && writes_register(&insns[k], register))
}
