//! Logs and needs of small graphs that are built by hand.
use crate::graphs::{ONE_OUTPUT, Part, SUM, best_in, graph_of, row_of, sums, two_sums};
use ci_check::{Wrong, check, needs_more};
use ci_cut::Source::{Entry, Made};
use ci_cut::{Graph, Limits};
use ci_log::{Entry as LogEntry, LogBook, LogFault, read};
use ci_word::Row;
use std::alloc::{AllocError, Global};
use std::process::Abort;

// Graphs, books and tables are the answers of functions, so that the proof of a test looks at none of them, and what
// owns memory is let go by a call of `drop`.

/// A book with one search, whose log has these letters.
fn book_of(rt: &impl Abort, alloc: Global, letters: &[u8]) -> Result<LogBook, LogFault> {
    let mut text = Vec::from_slice(alloc, b"ci-log 1\nblock 00010074 none\n")?;
    text.extend_from_slice(letters)?;
    text.extend_from_slice(b"\nend none\n")?;
    assert!(rt; text.len() < 1000);
    let book = read(alloc, &text);
    drop(text);
    book
}

/// Checks the log of the book's search.
fn checked(
    rt: &impl Abort,
    graph: &Graph,
    limits: &Limits,
    best: Option<Row>,
    book: &LogBook,
) -> Result<(), Wrong> {
    let entries = book.entries();
    assert!(rt; !entries.is_empty());
    match &entries[0] {
        LogEntry::Without { log, .. } => check(graph, limits, best, log),
        _ => panic!(rt; "no search without a cut"),
    }
}

/// Asserts what the checker says of a log of these letters: the item and the reason that are wrong, if one is.
fn expect(
    rt: &impl Abort,
    alloc: Global,
    graph: &Graph,
    best: Option<Row>,
    letters: &[u8],
    wrong: Option<(u32, u8)>,
) -> Result<(), LogFault> {
    let book = book_of(rt, alloc, letters)?;
    let answer = checked(rt, graph, &ONE_OUTPUT, best, &book);
    drop(book);
    let answer = match answer {
        Ok(()) => None,
        Err(Wrong { item, reason }) => Some((item, reason)),
    };
    assert!(rt; answer == wrong, "the log {letters:?}");
    Ok(())
}

/// A cut, the letters of a log, and what is wrong.
type Told<'a> = (&'a [u8], &'a [u8], Option<(u32, u8)>);

/// The same for each of these cuts and logs of a graph.
fn expect_each(
    rt: &impl Abort,
    alloc: Global,
    parts: &[Part<'_>],
    rows: &[Told<'_>],
) -> Result<(), LogFault> {
    let graph = graph_of(rt, alloc, parts)?;
    for (members, letters, wrong) in rows {
        expect(rt, alloc, &graph, Some(row_of(members)), letters, *wrong)?;
    }
    drop(graph);
    Ok(())
}

/// add x5, x10, x11; lw x6, 0(x0); add x10, x5, x12; addi x17, x0, 93; ecall
fn pair_and_call() -> &'static [Part<'static>] {
    &[
        SUM,
        Part {
            eligible: false,
            operands: &[],
            ..SUM
        },
        Part {
            operands: &[Made(0), Entry(12)],
            ..SUM
        },
        Part {
            operands: &[],
            ..SUM
        },
        Part {
            eligible: false,
            operands: &[Made(2), Entry(11), Entry(12), Made(3)],
            after: &[0, 1],
            ..SUM
        },
    ]
}

#[test]
fn worked_log(rt: HostRuntime) -> Result<(), LogFault> {
    expect_each(
        &rt,
        rt.alloc(),
        pair_and_call(),
        &[
            (&[0, 2], b"BBOBOFBBFFG", None),
            (&[0, 2], b"BBOBOFBBFFF", Some((10, 5))),
        ],
    )?;
    let graph = graph_of(&rt, rt.alloc(), pair_and_call())?;
    let better = expect(&rt, rt.alloc(), &graph, None, b"BBOBOFBBFFG", Some((8, 5)));
    let gains = expect(&rt, rt.alloc(), &graph, None, b"G", Some((0, 4)));
    drop(graph);
    better?;
    gains
}

/// Logs of a pair of sums, with one that is right and one for each reason.
fn reasons() -> &'static [Told<'static>] {
    &[
        (&[0, 1], b"BBFFG", None),
        (&[0, 1], b"O", Some((0, 1))),
        (&[0, 1], b"C", Some((0, 2))),
        (&[0, 1], b"I", Some((0, 3))),
        (&[0, 1], b"BGG", Some((1, 4))),
        (&[0, 1], b"BFG", Some((1, 5))),
        (&[0, 1], b"BBBFFFG", Some((2, 6))),
        (&[0], b"O", Some((0, 7))),
        (&[1], b"O", Some((0, 7))),
        (&[0, 2], b"O", Some((0, 7))),
        (&[0, 1, 255], b"O", Some((0, 7))),
        (&[], b"O", Some((0, 7))),
    ]
}

#[test]
fn each_reason(rt: HostRuntime) -> Result<(), LogFault> {
    expect_each(&rt, rt.alloc(), two_sums(), reasons())
}

/// The pair of sums, and a sum of a register and a constant behind it.
fn pair_and_sum() -> &'static [Part<'static>] {
    &[
        SUM,
        Part {
            operands: &[Made(0), Entry(12)],
            live: true,
            ..SUM
        },
        Part {
            operands: &[Entry(13)],
            live: true,
            ..SUM
        },
    ]
}

#[test]
fn order_among_equals(rt: HostRuntime) -> Result<(), LogFault> {
    expect_each(
        &rt,
        rt.alloc(),
        sums(),
        &[
            (&[2, 3], b"BBBOBOFBOGBBOGG", None),
            (&[0, 1], b"BBBOBOFBOGBBOGG", Some((6, 5))),
        ],
    )?;
    expect_each(
        &rt,
        rt.alloc(),
        pair_and_sum(),
        &[
            (&[0, 1], b"BBOBOFBBFFG", None),
            (&[0, 1], b"BBOGG", Some((3, 4))),
        ],
    )
}

/// Asserts whether a graph needs more branches than each of these budgets.
fn expect_needs(
    rt: &impl Abort,
    alloc: Global,
    parts: &[Part<'_>],
    rows: &[(u32, bool)],
) -> Result<(), AllocError> {
    let graph = graph_of(rt, alloc, parts)?;
    for (budget, due) in rows {
        assert!(rt;
            needs_more(&graph, &ONE_OUTPUT, *budget) == *due,
            "{budget}"
        );
    }
    drop(graph);
    Ok(())
}

#[test]
fn needs(rt: HostRuntime) -> Result<(), AllocError> {
    expect_needs(
        &rt,
        rt.alloc(),
        two_sums(),
        &[(0, true), (1, true), (2, false)],
    )?;
    expect_needs(&rt, rt.alloc(), sums(), &[(6, true), (7, false)])?;
    expect_needs(&rt, rt.alloc(), &[], &[(0, false)])
}

/// Some of these numbers, by the digits of a number in base 2.
fn choice_of(numbers: &[u8], digits: u32) -> Row {
    let mut row = Row::empty();
    let mut rest = digits;
    for number in numbers {
        if rest % 2 == 1 {
            row.insert(*number);
        }
        rest /= 2;
    }
    row
}

/// A graph, limits, and the numbers of its eligible nodes.
#[derive(Clone, Copy)]
struct Searched<'a> {
    graph: &'a Graph,
    limits: &'a Limits,
    numbers: &'a [u8],
}

/// Whether a book's log is accepted for this cut, or for none.
fn is_accepted(rt: &impl Abort, searched: Searched<'_>, cut: Option<Row>, book: &LogBook) -> bool {
    match checked(rt, searched.graph, searched.limits, cut, book) {
        Ok(()) => true,
        Err(_) => false,
    }
}

/// Whether a book's log is accepted for the best cut, or for none: for any other set of these numbers, and for none,
/// it is not.
fn is_accepted_for_the_best(rt: &impl Abort, searched: Searched<'_>, book: &LogBook) -> bool {
    let best = best_in(rt, searched.graph, searched.limits);
    assert!(rt; searched.numbers.len() < 8);
    for digits in 0..1u32 << searched.numbers.len() {
        let cut = Some(choice_of(searched.numbers, digits));
        let accepted = is_accepted(rt, searched, cut, book);
        assert!(rt; !accepted || cut == best);
    }
    let without = is_accepted(rt, searched, None, book);
    assert!(rt; !without || best.is_none());
    is_accepted(rt, searched, best, book)
}

/// The same for a log of these letters.
fn is_tree_accepted(
    rt: &impl Abort,
    alloc: Global,
    searched: Searched<'_>,
    letters: &[u8],
) -> Result<bool, LogFault> {
    let book = book_of(rt, alloc, letters)?;
    let accepted = is_accepted_for_the_best(rt, searched, &book);
    drop(book);
    Ok(accepted)
}

/// Whether one of these logs is so accepted.
fn is_any_accepted(
    rt: &impl Abort,
    alloc: Global,
    searched: Searched<'_>,
    trees: &[Vec<u8>],
) -> Result<bool, LogFault> {
    let mut any = false;
    for tree in trees {
        any |= is_tree_accepted(rt, alloc, searched, tree)?;
    }
    Ok(any)
}

/// A branch with these two trees.
fn branch_of(alloc: Global, first: &[u8], second: &[u8]) -> Result<Vec<u8>, AllocError> {
    let mut tree = Vec::from_slice(alloc, b"B")?;
    tree.extend_from_slice(first)?;
    tree.extend_from_slice(second)?;
    Ok(tree)
}

/// The tree that branches on each of so many nodes.
fn whole_tree(alloc: Global, nodes: usize) -> Result<Vec<u8>, AllocError> {
    let mut tree = Vec::from_slice(alloc, b"F")?;
    for _ in 0..nodes {
        tree = branch_of(alloc, &tree, &tree)?;
    }
    Ok(tree)
}

/// That tree alone.
fn one_whole_tree(alloc: Global, nodes: usize) -> Result<Vec<Vec<u8>>, AllocError> {
    let mut trees = Vec::new(alloc);
    trees.push(whole_tree(alloc, nodes)?)?;
    Ok(trees)
}

/// The trees that branch at most once more than these: the leaves, and all branches with two of these.
fn taller_trees(alloc: Global, trees: &[Vec<u8>]) -> Result<Vec<Vec<u8>>, AllocError> {
    let mut taller = Vec::new(alloc);
    for leaf in b"OCIGF" {
        taller.push([*leaf].to_vec(alloc)?)?;
    }
    for first in trees {
        for second in trees {
            taller.push(branch_of(alloc, first, second)?)?;
        }
    }
    Ok(taller)
}

/// The trees of at most one branch.
fn small_trees(alloc: Global) -> Result<Vec<Vec<u8>>, AllocError> {
    let leaves = taller_trees(alloc, &[])?;
    let trees = taller_trees(alloc, &leaves);
    drop(leaves);
    trees
}

/// The trees of at most two branches one above the other.
fn medium_trees(alloc: Global) -> Result<Vec<Vec<u8>>, AllocError> {
    let small = small_trees(alloc)?;
    let trees = taller_trees(alloc, &small);
    drop(small);
    trees
}

/// The limits under which trees are tried.
fn limits() -> [Limits; 2] {
    [
        ONE_OUTPUT,
        Limits {
            inputs: 2,
            outputs: 2,
        },
    ]
}

/// The pair of sums, and one of the second of them.
fn three_sums() -> &'static [Part<'static>] {
    &[
        SUM,
        Part {
            operands: &[Made(0), Entry(12)],
            live: true,
            ..SUM
        },
        Part {
            operands: &[Made(1), Entry(12)],
            live: true,
            ..SUM
        },
    ]
}

/// A sum, a load that comes after it, and a sum of both.
fn sum_of_a_load() -> &'static [Part<'static>] {
    &[
        SUM,
        Part {
            eligible: false,
            operands: &[Entry(12)],
            after: &[0],
            live: true,
            ..SUM
        },
        Part {
            operands: &[Made(0), Made(1)],
            live: true,
            ..SUM
        },
    ]
}

/// Two sums of registers that no one reads.
fn unread_sums() -> &'static [Part<'static>] {
    &[
        Part {
            operands: &[Entry(13), Entry(14)],
            ..SUM
        },
        SUM,
    ]
}

/// Three sums of which each reads the one before, and the last is live.
fn chain() -> &'static [Part<'static>] {
    &[
        SUM,
        Part {
            operands: &[Made(0), Entry(12)],
            ..SUM
        },
        Part {
            operands: &[Made(1), Entry(12)],
            live: true,
            ..SUM
        },
    ]
}

/// Asserts that under each of the limits one of these logs is accepted for the best cut of a graph, and each for no
/// other.
fn expect_accepted(
    rt: &impl Abort,
    alloc: Global,
    parts: &[Part<'_>],
    numbers: &[u8],
    limits: &[Limits],
    trees: &[Vec<u8>],
) -> Result<(), LogFault> {
    let graph = graph_of(rt, alloc, parts)?;
    for each in limits {
        let searched = Searched {
            graph: &graph,
            limits: each,
            numbers,
        };
        let any = is_any_accepted(rt, alloc, searched, trees)?;
        assert!(rt; any);
    }
    drop(graph);
    Ok(())
}

/// The same for the tree that branches on each eligible node.
fn expect_whole_tree(
    rt: &impl Abort,
    alloc: Global,
    parts: &[Part<'_>],
    numbers: &[u8],
) -> Result<(), LogFault> {
    let trees = one_whole_tree(alloc, numbers.len())?;
    let outcome = expect_accepted(rt, alloc, parts, numbers, &limits(), &trees);
    drop(trees);
    outcome
}

#[test]
fn whole_trees(rt: HostRuntime) -> Result<(), LogFault> {
    expect_whole_tree(&rt, rt.alloc(), sums(), &[0, 1, 2, 3])?;
    expect_whole_tree(&rt, rt.alloc(), three_sums(), &[0, 1, 2])?;
    expect_whole_tree(&rt, rt.alloc(), sum_of_a_load(), &[0, 2])?;
    expect_whole_tree(&rt, rt.alloc(), &[], &[])
}

/// Asserts that these trees are accepted so for three graphs of two eligible nodes.
fn expect_of_two(rt: &impl Abort, alloc: Global, trees: &[Vec<u8>]) -> Result<(), LogFault> {
    assert!(rt; trees.len() == 905);
    expect_accepted(rt, alloc, two_sums(), &[0, 1], &limits(), trees)?;
    expect_accepted(rt, alloc, sum_of_a_load(), &[0, 2], &limits(), trees)?;
    expect_accepted(rt, alloc, unread_sums(), &[0, 1], &limits(), trees)
}

#[test]
fn all_trees_of_two_nodes(rt: HostRuntime) -> Result<(), LogFault> {
    let trees = medium_trees(rt.alloc())?;
    let outcome = expect_of_two(&rt, rt.alloc(), &trees);
    drop(trees);
    outcome
}

/// Whether the branch with these two trees is so accepted.
fn is_branch_accepted(
    rt: &impl Abort,
    alloc: Global,
    searched: Searched<'_>,
    first: &[u8],
    second: &[u8],
) -> Result<bool, LogFault> {
    let tree = branch_of(alloc, first, second)?;
    let accepted = is_tree_accepted(rt, alloc, searched, &tree);
    drop(tree);
    accepted
}

/// Whether one of the branches with this tree and one of these trees, on either side, is so accepted.
fn is_any_branch_accepted(
    rt: &impl Abort,
    alloc: Global,
    searched: Searched<'_>,
    first: &[u8],
    trees: &[Vec<u8>],
) -> Result<bool, LogFault> {
    let mut any = false;
    for second in trees {
        any |= is_branch_accepted(rt, alloc, searched, first, second)?;
        any |= is_branch_accepted(rt, alloc, searched, second, first)?;
    }
    Ok(any)
}

/// Whether one of the branches with one of these trees and one of those, on either side, is so accepted.
fn is_any_pair_accepted(
    rt: &impl Abort,
    alloc: Global,
    searched: Searched<'_>,
    small: &[Vec<u8>],
    trees: &[Vec<u8>],
) -> Result<bool, LogFault> {
    let mut any = false;
    for first in small {
        any |= is_any_branch_accepted(rt, alloc, searched, first, trees)?;
    }
    Ok(any)
}

// Every tree of at most nine items: of the two trees below the root one has at most three.
#[test]
fn small_trees_of_three_nodes(rt: HostRuntime) -> Result<(), LogFault> {
    let graph = graph_of(&rt, rt.alloc(), chain())?;
    let searched = Searched {
        graph: &graph,
        limits: &ONE_OUTPUT,
        numbers: &[0, 1, 2],
    };
    let small = small_trees(rt.alloc())?;
    let trees = medium_trees(rt.alloc())?;
    let any = is_any_pair_accepted(&rt, rt.alloc(), searched, &small, &trees);
    drop(small);
    drop(trees);
    drop(graph);
    assert!(rt; any?);
    Ok(())
}
