//! The terms and the best cut of small graphs that are built by hand.
use crate::graphs::{
    Charges, DEFAULT, ONE_OUTPUT, Part, SUM, best_in, graph_of, graph_under, row_below, row_of,
    sums, two_sums,
};
use ci_cut::Source::{Entry, Made};
use ci_cut::{Graph, Limits, fits, gain, hardware, inputs, is_convex, outputs};
use std::alloc::{AllocError, Global};
use std::process::Abort;

// Graphs are the answers of functions, so that the proof of a test looks at none of them, and are let go by calls of
// `drop`.

/// Asserts whether a set of nodes is convex, and how many inputs and outputs it has.
fn has_terms(rt: &impl Abort, graph: &Graph, members: &[u8], due: (bool, u32, u32)) {
    let cut = row_below(rt, graph.nodes().len(), members);
    let convex = is_convex(graph, &cut);
    assert!(rt;
        (convex, inputs(graph, &cut), outputs(graph, &cut)) == due,
        "terms of {members:?}"
    );
}

/// The same for each of these sets of a graph.
fn expect_terms(
    rt: &impl Abort,
    alloc: Global,
    parts: &[Part<'_>],
    rows: &[(&[u8], (bool, u32, u32))],
) -> Result<(), AllocError> {
    let graph = graph_of(rt, alloc, parts)?;
    for (members, due) in rows {
        has_terms(rt, &graph, members, *due);
    }
    drop(graph);
    Ok(())
}

/// Asserts the hardware time and the gain of a set of nodes.
fn has_value(rt: &impl Abort, graph: &Graph, members: &[u8], due: (u32, i64)) {
    let cut = row_below(rt, graph.nodes().len(), members);
    assert!(rt;
        (hardware(graph, &cut), gain(graph, &cut)) == due,
        "value of {members:?}"
    );
}

/// The same for each of these sets of a graph under these charges.
fn expect_values(
    rt: &impl Abort,
    alloc: Global,
    charges: Charges,
    parts: &[Part<'_>],
    rows: &[(&[u8], (u32, i64))],
) -> Result<(), AllocError> {
    let graph = graph_under(rt, alloc, charges, parts)?;
    for (members, due) in rows {
        has_value(rt, &graph, members, *due);
    }
    drop(graph);
    Ok(())
}

#[test]
fn chained_adds(rt: HostRuntime) -> Result<(), AllocError> {
    expect_terms(
        &rt,
        rt.alloc(),
        two_sums(),
        &[
            (&[], (true, 0, 0)),
            (&[0], (true, 2, 1)),
            (&[1], (true, 2, 1)),
            (&[0, 1], (true, 3, 1)),
        ],
    )
}

/// add x5, x10, x10; add x6, x5, x5; add x7, x5, x10: x5 and x7 are live.
fn equals() -> &'static [Part<'static>] {
    &[
        Part {
            operands: &[Entry(10), Entry(10)],
            live: true,
            ..SUM
        },
        Part {
            operands: &[Made(0), Made(0)],
            ..SUM
        },
        Part {
            operands: &[Made(0), Entry(10)],
            live: true,
            ..SUM
        },
    ]
}

#[test]
fn equal_operands(rt: HostRuntime) -> Result<(), AllocError> {
    expect_terms(
        &rt,
        rt.alloc(),
        equals(),
        &[
            (&[0], (true, 1, 1)),
            (&[1], (true, 1, 0)),
            (&[1, 2], (true, 2, 1)),
            (&[0, 1, 2], (true, 1, 2)),
        ],
    )
}

/// xor x5, x10, x11; xor x6, x5, x12; xor x6, x6, x10; xor x6, x6, x11: five operands from outside, of three registers.
fn four_of_logic() -> &'static [Part<'static>] {
    &[
        Part {
            delay: 100,
            live: true,
            ..SUM
        },
        Part {
            operands: &[Made(0), Entry(12)],
            delay: 100,
            ..SUM
        },
        Part {
            operands: &[Made(1), Entry(10)],
            delay: 100,
            ..SUM
        },
        Part {
            operands: &[Made(2), Entry(11)],
            delay: 100,
            live: true,
            ..SUM
        },
    ]
}

#[test]
fn distinct_inputs(rt: HostRuntime) -> Result<(), AllocError> {
    let parts = four_of_logic();
    expect_terms(&rt, rt.alloc(), parts, &[(&[0, 1, 2, 3], (true, 3, 2))])?;
    expect_values(&rt, rt.alloc(), DEFAULT, parts, &[(&[0, 1, 2, 3], (1, 2))])
}

/// add x5, x10, x11; lw x10, 0(x12); add x5, x5, x10: the load writes x10 after the first node has read it.
fn load_between() -> &'static [Part<'static>] {
    &[
        SUM,
        Part {
            operands: &[Entry(12)],
            after: &[0],
            live: true,
            ..SUM
        },
        Part {
            operands: &[Made(0), Made(1)],
            live: true,
            ..SUM
        },
    ]
}

#[test]
fn write_after_a_read(rt: HostRuntime) -> Result<(), AllocError> {
    expect_terms(
        &rt,
        rt.alloc(),
        load_between(),
        &[
            (&[0, 2], (false, 3, 1)),
            (&[0, 1], (true, 3, 2)),
            (&[0, 1, 2], (true, 3, 2)),
        ],
    )
}

/// lw x5, 0(x10); sw x6, 0(x11); sw x7, 0(x12); lw x8, 0(x13): each comes after the one before it.
fn accesses() -> &'static [Part<'static>] {
    &[
        Part {
            operands: &[Entry(10)],
            live: true,
            ..SUM
        },
        Part {
            operands: &[Entry(11), Entry(6)],
            after: &[0],
            ..SUM
        },
        Part {
            operands: &[Entry(12), Entry(7)],
            after: &[1],
            ..SUM
        },
        Part {
            operands: &[Entry(13)],
            after: &[2],
            live: true,
            ..SUM
        },
    ]
}

#[test]
fn order_of_memory_accesses(rt: HostRuntime) -> Result<(), AllocError> {
    expect_terms(
        &rt,
        rt.alloc(),
        accesses(),
        &[
            (&[0, 3], (false, 2, 2)),
            (&[1, 3], (false, 3, 1)),
            (&[1, 2], (true, 4, 0)),
            (&[0, 1, 2, 3], (true, 6, 2)),
        ],
    )
}

/// Additions that each read the one before: of 400 thousandths of a cycle each.
fn chain() -> &'static [Part<'static>] {
    &[
        SUM,
        Part {
            operands: &[Made(0), Entry(12)],
            ..SUM
        },
        Part {
            operands: &[Made(1), Entry(13)],
            live: true,
            ..SUM
        },
    ]
}

#[test]
fn hardware_of_a_chain(rt: HostRuntime) -> Result<(), AllocError> {
    expect_values(
        &rt,
        rt.alloc(),
        DEFAULT,
        chain(),
        &[
            (&[], (1, -1)),
            (&[0, 1], (1, 1)),
            (&[0, 1, 2], (2, 0)),
            (&[0, 2], (1, -1)),
        ],
    )
}

/// Two chains side by side: of 700 and 700, and of 2600.
fn chains() -> &'static [Part<'static>] {
    &[
        Part {
            operands: &[Entry(10)],
            delay: 700,
            ..SUM
        },
        Part {
            operands: &[Entry(11)],
            delay: 2600,
            live: true,
            ..SUM
        },
        Part {
            operands: &[Made(0)],
            delay: 700,
            live: true,
            ..SUM
        },
    ]
}

#[test]
fn hardware_of_the_longer_chain(rt: HostRuntime) -> Result<(), AllocError> {
    expect_values(
        &rt,
        rt.alloc(),
        DEFAULT,
        chains(),
        &[(&[0, 1, 2], (3, -1)), (&[0, 2], (2, 0))],
    )
}

#[test]
fn a_pair_of_adds(rt: HostRuntime) -> Result<(), AllocError> {
    expect_values(&rt, rt.alloc(), DEFAULT, two_sums(), &[(&[0, 1], (1, 1))])?;
    let graph = graph_of(&rt, rt.alloc(), two_sums())?;
    let pair = row_below(&rt, graph.nodes().len(), &[0, 1]);
    let two_inputs = Limits {
        inputs: 2,
        outputs: 1,
    };
    assert!(rt; fits(&graph, &ONE_OUTPUT, &pair));
    assert!(rt; !fits(&graph, &two_inputs, &pair));
    assert!(rt; best_in(&rt, &graph, &ONE_OUTPUT) == Some(pair));
    assert!(rt; best_in(&rt, &graph, &two_inputs) == None);
    drop(graph);
    Ok(())
}

/// Asserts the best cut of a graph with one output.
fn expect_best(
    rt: &impl Abort,
    alloc: Global,
    parts: &[Part<'_>],
    members: Option<&[u8]>,
) -> Result<(), AllocError> {
    let graph = graph_of(rt, alloc, parts)?;
    let due = match members {
        Some(members) => Some(row_of(members)),
        None => None,
    };
    assert!(rt; best_in(rt, &graph, &ONE_OUTPUT) == due);
    drop(graph);
    Ok(())
}

// Both pairs gain 1, and the set with the last node comes first.
#[test]
fn the_first_of_equals(rt: HostRuntime) -> Result<(), AllocError> {
    expect_best(&rt, rt.alloc(), sums(), Some(&[2, 3]))?;
    expect_best(&rt, rt.alloc(), &[], None)
}

/// Three additions of which each reads the one before, where the first is live beside the last or not.
fn three_sums(live: bool) -> [Part<'static>; 3] {
    [
        Part { live, ..SUM },
        Part {
            operands: &[Made(0), Entry(11)],
            ..SUM
        },
        Part {
            operands: &[Made(1), Entry(11)],
            live: true,
            ..SUM
        },
    ]
}

// Under charges of 2 cycles for a read and 1 for a filling word. Where the first sum is live beside the last, their use
// takes a read and one filling word; where the last alone is, two filling words.
#[test]
fn gain_under_charges(rt: HostRuntime) -> Result<(), AllocError> {
    let dear = Charges { read: 2, pad: 1 };
    let all: &[u8] = &[0, 1, 2];
    expect_values(&rt, rt.alloc(), dear, &three_sums(true), &[(all, (2, -2))])?;
    expect_values(&rt, rt.alloc(), dear, &three_sums(false), &[(all, (2, -1))])
}

/// xor x5, x10, x11; xor x5, x5, x12; xor x5, x5, x13; xor x5, x5, x14: five inputs.
fn five_inputs() -> &'static [Part<'static>] {
    &[
        Part { delay: 100, ..SUM },
        Part {
            operands: &[Made(0), Entry(12)],
            delay: 100,
            ..SUM
        },
        Part {
            operands: &[Made(1), Entry(13)],
            delay: 100,
            ..SUM
        },
        Part {
            operands: &[Made(2), Entry(14)],
            delay: 100,
            live: true,
            ..SUM
        },
    ]
}

// A further word takes what a read does, and leaves a place less.
#[test]
fn gain_of_five_inputs(rt: HostRuntime) -> Result<(), AllocError> {
    let (parts, dear) = (five_inputs(), Charges { read: 2, pad: 1 });
    let (three, four, five): (&[u8], &[u8], &[u8]) = (&[2, 3], &[1, 2, 3], &[0, 1, 2, 3]);
    let terms = [
        (three, (true, 3, 1)),
        (four, (true, 4, 1)),
        (five, (true, 5, 1)),
    ];
    expect_terms(&rt, rt.alloc(), parts, &terms)?;
    let values = [(three, (1, 1)), (four, (1, 1)), (five, (1, 2))];
    expect_values(&rt, rt.alloc(), DEFAULT, parts, &values)?;
    let values = [(three, (1, 0)), (four, (1, -1)), (five, (1, -1))];
    expect_values(&rt, rt.alloc(), dear, parts, &values)
}

/// xor x5, x10, x11; xor x6, x5, x12; xor x7, x6, x10; xor x7, x7, x11; xor x7, x7, x12: three outputs.
fn three_outputs() -> &'static [Part<'static>] {
    &[
        Part {
            delay: 100,
            live: true,
            ..SUM
        },
        Part {
            operands: &[Made(0), Entry(12)],
            delay: 100,
            live: true,
            ..SUM
        },
        Part {
            operands: &[Made(1), Entry(10)],
            delay: 100,
            ..SUM
        },
        Part {
            operands: &[Made(2), Entry(11)],
            delay: 100,
            ..SUM
        },
        Part {
            operands: &[Made(3), Entry(12)],
            delay: 100,
            live: true,
            ..SUM
        },
    ]
}

#[test]
fn gain_of_three_outputs(rt: HostRuntime) -> Result<(), AllocError> {
    let (parts, dear) = (three_outputs(), Charges { read: 2, pad: 1 });
    let all: &[u8] = &[0, 1, 2, 3, 4];
    expect_terms(&rt, rt.alloc(), parts, &[(all, (true, 3, 3))])?;
    expect_values(&rt, rt.alloc(), DEFAULT, parts, &[(all, (1, 2))])?;
    expect_values(&rt, rt.alloc(), dear, parts, &[(all, (1, -2))])
}

/// Asserts the best cut of a graph under these limits.
fn expect_best_within(
    rt: &impl Abort,
    alloc: Global,
    parts: &[Part<'_>],
    limits: &Limits,
    members: &[u8],
) -> Result<(), AllocError> {
    let graph = graph_of(rt, alloc, parts)?;
    let due = Some(row_of(members));
    assert!(rt; best_in(rt, &graph, limits) == due);
    drop(graph);
    Ok(())
}

const FIVE_INPUTS: Limits = Limits {
    inputs: 5,
    outputs: 1,
};

const FOUR_INPUTS: Limits = Limits {
    inputs: 4,
    outputs: 1,
};

const THREE_OUTPUTS: Limits = Limits {
    inputs: 3,
    outputs: 3,
};

const TWO_OUTPUTS: Limits = Limits {
    inputs: 3,
    outputs: 2,
};

const GREATEST: Limits = Limits {
    inputs: 5,
    outputs: 3,
};

#[test]
fn best_by_limits(rt: HostRuntime) -> Result<(), AllocError> {
    let alloc = rt.alloc();
    expect_best_within(&rt, alloc, five_inputs(), &FIVE_INPUTS, &[0, 1, 2, 3])?;
    expect_best_within(&rt, alloc, five_inputs(), &FOUR_INPUTS, &[1, 2, 3])?;
    expect_best_within(&rt, alloc, five_inputs(), &ONE_OUTPUT, &[2, 3])?;
    expect_best_within(
        &rt,
        alloc,
        three_outputs(),
        &THREE_OUTPUTS,
        &[0, 1, 2, 3, 4],
    )?;
    expect_best_within(&rt, alloc, three_outputs(), &TWO_OUTPUTS, &[3, 4])
}

/// add x5, x10, x11; add x6, x12, x13, of which both are live: four inputs and two outputs take three words.
fn two_apart() -> &'static [Part<'static>] {
    &[
        Part { live: true, ..SUM },
        Part {
            operands: &[Entry(12), Entry(13)],
            live: true,
            ..SUM
        },
    ]
}

#[test]
fn a_place_for_each_word(rt: HostRuntime) -> Result<(), AllocError> {
    let graph = graph_of(&rt, rt.alloc(), two_apart())?;
    let both = row_below(&rt, graph.nodes().len(), &[0, 1]);
    assert!(rt; !fits(&graph, &GREATEST, &both));
    drop(graph);
    Ok(())
}
