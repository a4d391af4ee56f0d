//! The netlists of modules, what they compute, and their text.
use crate::plan::{all_bodies, values};
use crate::unit::unit_of_sums;
use crate::vread::head;
use ci_gates::{Bit, Gate, GateFault, Netlist, count, netlist, of_module, read, value, write};
use ci_unit::UnitTable;
use ci_vemit::modules;
use ci_verilog::Module;
use ci_vread::read as read_modules;
use std::alloc::{AllocError, Global};
use std::process::Abort;
use std::test::Fail;

/// Both lists have the same gates and results.
fn are_same(rt: &impl Abort, left: &[Netlist], right: &[Netlist]) {
    assert!(rt; left.len() == right.len());
    for (k, net) in left.iter().enumerate() {
        assert!(rt; k < right.len());
        assert!(rt; net.gates() == right[k].gates());
        assert!(rt; net.outputs() == right[k].outputs());
    }
}

/// The netlists have a text, which is read as them.
fn have_a_text(rt: &(impl AllocGlobal + Abort), nets: &[Netlist]) -> Result<(), AllocError> {
    assert!(rt; nets.len() <= 32);
    let text = write(rt.alloc(), nets)?;
    assert!(rt; text.len() <= 268_435_456);
    match read(rt.alloc(), &text) {
        Ok(again) => {
            are_same(rt, nets, &again);
            drop(again);
        }
        Err(_) => assert!(rt; false),
    }
    drop(text);
    Ok(())
}

/// The netlist of a module, which has the module's count of gates.
fn netlist_of(rt: &(impl AllocGlobal + Abort), module: &Module) -> Result<Netlist, AllocError> {
    let gates = count(module);
    assert!(rt; gates <= 4_194_304);
    let net = of_module(rt.alloc(), module)?;
    assert!(rt; (net.gates().len() as u64) == gates);
    Ok(net)
}

fn netlists_of(
    rt: &(impl AllocGlobal + Abort),
    modules: &[Module],
) -> Result<Vec<Netlist>, AllocError> {
    let mut nets = Vec::new(rt.alloc());
    for module in modules {
        nets.push(netlist_of(rt, module)?)?;
    }
    Ok(nets)
}

/// Numbers of modules, the values of the inputs, and those of y, z and x.
type Row = (usize, [u32; 5], (u32, u32, u32));

/// The modules of a text have these counts and values, and their netlists a text.
fn text_has_values(
    rt: &(impl AllocGlobal + Abort),
    text: &str,
    counts: &[u64],
    rows: &[Row],
) -> Result<(), AllocError> {
    assert!(rt; text.len() <= 268_435_456);
    match read_modules(rt.alloc(), text.as_bytes()) {
        Ok(modules) => {
            let nets = netlists_of(rt, &modules)?;
            assert!(rt; counts.len() == modules.len());
            for (k, due) in counts.iter().enumerate() {
                assert!(rt; k < modules.len());
                assert!(rt; count(&modules[k]) == *due, "{k}");
            }
            for (number, inputs, due) in rows {
                let [a, b, c, d, e] = *inputs;
                assert!(rt; *number < nets.len());
                let found = value(rt.alloc(), &nets[*number], a, b, c, d, e)?;
                assert!(rt; found == *due, "{number} {a:x}");
            }
            have_a_text(rt, &nets)?;
            drop(nets);
            drop(modules);
        }
        Err(_) => assert!(rt; false, "{text}"),
    }
    Ok(())
}

// The counts are those of the table of operators, added by hand.
#[test]
fn netlists_of_modules(rt: HostRuntime) -> Result<(), AllocError> {
    let text = all_bodies(&rt)?;
    let counts = [
        160 + 192 + 3168,
        96,
        193 + 3072 + 3072 + 96,
        12_480,
        6144,
        384,
        40 + 48 + 216 + 96,
        0,
        960,
        0,
        1152 + 1152 + 1344,
        480 + 480,
        12_480,
        12_480 + 12_480,
        480 + 480 + 32 + 3168 + 160 + 480 + 160,
        3168 + 160,
    ];
    let outcome = text_has_values(&rt, text.as_str(), &counts, values());
    drop(text);
    outcome
}

/// The bodies of two sums, and of the upper word of a product of a signed and an unsigned number.
fn sums_and_product() -> (&'static str, &'static str) {
    (
        "wire [31:0] p0;\nassign p0 = a;\nwire [31:0] q0;\nassign q0 = b;\nwire [31:0] t0;\nassign t0 = p0 + q0;\n\
        wire [31:0] t1;\nassign t1 = t0 + c;\nassign y = t1;\nassign z = 32'h00000000;\nendmodule\n",
        "wire [31:0] p0;\nassign p0 = a;\nwire [31:0] q0;\nassign q0 = b;\nwire [63:0] m0;\n\
        assign m0 = {{32{p0[31]}}, p0} * {32'h00000000, q0};\nassign y = m0[63:32];\nassign z = 32'h00000000;\n\
        endmodule\n",
    )
}

#[test]
fn netlists_of_sums_and_a_product(rt: HostRuntime) -> Result<(), AllocError> {
    let mut text = head(&rt, 0, false)?;
    let (sums, product) = sums_and_product();
    text.push_str(sums)?;
    let second = head(&rt, 1, false)?;
    text.push_str(second.as_str())?;
    drop(second);
    text.push_str(product)?;
    let rows = [
        (0, [7, 9, 0xffff_ffff, 0, 0], (15, 0, 0)),
        (1, [0x8000_0000, 0xffff_ffff, 0, 0, 0], (0x8000_0000, 0, 0)),
        (1, [0xffff_ffff, 0xffff_ffff, 0, 0, 0], (0xffff_ffff, 0, 0)),
    ];
    let outcome = text_has_values(&rt, text.as_str(), &[320, 12_480], &rows);
    drop(text);
    outcome
}

/// The netlist of the table's first unit.
fn netlist_of_first(
    rt: &impl Abort,
    alloc: Global,
    units: &UnitTable,
) -> Result<Netlist, AllocError> {
    let modules = modules(alloc, units)?;
    assert!(rt; modules.len() == 1 && units.len() == 1);
    let gates = count(&modules[0]);
    drop(modules);
    assert!(rt; gates <= 4_194_304);
    netlist(alloc, units, 0)
}

#[test]
fn a_netlist_of_a_table(rt: HostRuntime) -> Result<(), Fail> {
    let alloc = rt.alloc();
    let mut units = UnitTable::new(alloc);
    let unit = unit_of_sums(&rt, alloc, 5, (10, 11, 12))?;
    units.add(unit)?;
    let net = netlist_of_first(&rt, alloc, &units)?;
    assert!(rt; net.gates().len() == 320);
    assert!(rt; value(alloc, &net, 7, 9, 0xffff_ffff, 0, 0)? == (15, 0, 0));
    drop(net);
    drop(units);
    Ok(())
}

/// Appends a line of 32 bits, of which the first is this one and all others are 0.
fn push_result(text: &mut String, first: &str) -> Result<(), AllocError> {
    text.push_str(first)?;
    for _ in 0..31u32 {
        text.push_str(" 0")?;
    }
    text.push_str("\n")
}

/// Appends a netlist of three gates.
fn push_small(text: &mut String, place: u32) -> Result<(), AllocError> {
    write!(text, "netlist {place} gates 3\n")?;
    text.push_str("and a0 b31\nor g0 e31\nxor g1 1\n")?;
    push_result(text, "y g2")?;
    push_result(text, "z g1")?;
    push_result(text, "x g0")
}

fn has_fault(rt: &(impl AllocGlobal + Abort), text: &str, due: u32) {
    assert!(rt; text.len() <= 268_435_456);
    match read(rt.alloc(), text.as_bytes()) {
        Ok(nets) => {
            drop(nets);
            assert!(rt; false, "{text}");
        }
        Err(GateFault::Bad(offset)) => assert!(rt; offset == due, "{text}"),
        Err(GateFault::NoMemory) => assert!(rt; false, "{text}"),
    }
}

/// Bytes that are no text, and the offset at which they are bad.
fn faults() -> &'static [(&'static str, u32)] {
    &[
        ("q", 0),
        ("n", 1),
        ("netlist 1", 8),
        ("netlist 00", 9),
        ("netlist 0 gates 4194305", 22),
        ("netlist 0 gates 01", 17),
        ("netlist 0 gates 0\nand", 18),
        ("netlist 0 gates 0\ny g", 20),
        ("netlist 0 gates 1\nand a32", 24),
        ("netlist 0 gates 1\nand a00", 24),
        ("netlist 0 gates 1\nand f0", 22),
        ("netlist 0 gates 1\nand g", 22),
        ("netlist 0 gates 1\nand a3\n", 24),
        ("netlist 0 gates 1\nand a3  ", 25),
        ("netlist 0 gates 1\nand 1 0 ", 25),
        ("netlist 0 gates 1\nand 2", 22),
        ("netlist 0 gates 2\nand 1 0\nnor", 26),
        ("netlist 0 gates 2\nand 1 0\ny", 26),
        ("netlist 0 gates 2\nand 1 0\nor g1", 30),
        ("netlist 0 gates 2\nand 1 0\nor g00", 31),
    ]
}

#[test]
fn faults_of_texts(rt: HostRuntime) -> Result<(), AllocError> {
    for (text, due) in faults() {
        has_fault(&rt, *text, *due);
    }
    let mut text = String::new(rt.alloc());
    push_small(&mut text, 0)?;
    let one = text.len();
    push_small(&mut text, 0)?;
    assert!(&rt; one <= 1000);
    has_fault(&rt, text.as_str(), one as u32 + 8);
    drop(text);
    Ok(())
}

#[test]
fn gates_of_a_text(rt: HostRuntime) -> Result<(), AllocError> {
    let mut text = String::new(rt.alloc());
    for place in 0..32u32 {
        push_small(&mut text, place)?;
    }
    assert!(&rt; text.len() <= 100_000);
    match read(rt.alloc(), text.as_bytes()) {
        Ok(nets) => {
            assert!(&rt; nets.len() == 32);
            assert!(&rt;
                nets[31].gates()
                    == [
                        Gate::And(Bit::Input(0), Bit::Input(63)),
                        Gate::Or(Bit::Made(0), Bit::Input(159)),
                        Gate::Xor(Bit::Made(1), Bit::One),
                    ]
                    .as_slice()
            );
            assert!(&rt; value(rt.alloc(), &nets[0], 1, 0x8000_0000, 0, 0, 0)? == (0, 1, 1));
            assert!(&rt; value(rt.alloc(), &nets[31], 0, 0, 0, 0, 0x8000_0000)? == (0, 1, 0));
            have_a_text(&rt, &nets)?;
            drop(nets);
        }
        Err(_) => assert!(&rt; false),
    }
    let end = text.len();
    push_small(&mut text, 32)?;
    has_fault(&rt, text.as_str(), end as u32);
    drop(text);
    Ok(())
}
