//! Small functions, edge by edge.
//!
//! Constructs have the numbers of their nodes in a whole graph; what is not walked is passed, and
//! part of nothing.

use cfg_flow::{Jump, Plan, Row, flow};
use cfg_rules::Rule;
use std::alloc::{AllocError, Global};
use std::test::Fail;

/// A rule with its parts.
type Drawn = (Rule, &'static [Option<u32>]);

/// From the number of a construct to a mark.
type Arrow = (u32, u32);

/// A plan as it is written by hand, and its edges.
#[derive(Clone, Copy)]
struct Sketch {
    shows: &'static str,
    rows: &'static [Drawn],
    end: u32,
    targets: &'static [Arrow],
    breaks: &'static [Arrow],
    continues: &'static [Arrow],
    edges: &'static [Arrow],
}

fn jumps(alloc: Global, arrows: &[Arrow]) -> Result<Vec<Jump>, AllocError> {
    let mut jumps = Vec::new(alloc);
    for (construct, mark) in arrows {
        jumps.push(Jump {
            construct: *construct,
            mark: *mark,
        })?;
    }
    Ok(jumps)
}

fn plan(alloc: Global, sketch: &Sketch) -> Result<Plan, Fail> {
    let mut rows = Vec::new(alloc);
    let mut parts = Vec::new(alloc);
    for (rule, own) in sketch.rows {
        let from = u32::try_from(parts.len())?;
        parts.extend_from_slice(own)?;
        let to = u32::try_from(parts.len())?;
        rows.push(Row {
            rule: *rule,
            from,
            to,
        })?;
    }
    Ok(Plan {
        rows,
        parts,
        method_return: Some(sketch.end),
        targets: jumps(alloc, sketch.targets)?,
        breaks: jumps(alloc, sketch.breaks)?,
        continues: jumps(alloc, sketch.continues)?,
    })
}

const NAME: Drawn = (Rule::Primary, &[]);

const UNWALKED: Drawn = (Rule::Silent, &[]);

const FUNCTIONS: [Sketch; 8] = [
    // `void g(void) { r = a && b || c ? d : e; }`.
    Sketch {
        shows: "the second operand of a logical operator is not always evaluated",
        rows: &[
            UNWALKED,
            UNWALKED,
            (Rule::Method, &[Some(3)]),
            (Rule::Block, &[Some(4)]),
            (Rule::Call, &[Some(5), Some(6)]),
            NAME,
            (Rule::Conditional, &[Some(7), Some(12), Some(13)]),
            (Rule::ShortCircuit, &[Some(8), Some(11)]),
            (Rule::ShortCircuit, &[Some(9), Some(10)]),
            NAME,
            NAME,
            NAME,
            NAME,
            NAME,
        ],
        end: 14,
        targets: &[],
        breaks: &[],
        continues: &[],
        edges: &[
            (2, 5),
            (4, 14),
            (5, 9),
            (6, 4),
            (7, 12),
            (7, 13),
            (8, 7),
            (8, 11),
            (9, 8),
            (9, 10),
            (10, 8),
            (11, 7),
            (12, 6),
            (13, 6),
        ],
    },
    // `void f(int n) { switch (n) { case 1: a(); case 2: b(); } goto L; while (n) { L: c(); } }`.
    Sketch {
        shows: "a switch leads to its cases and a goto into a loop",
        rows: &[
            UNWALKED,
            UNWALKED,
            (Rule::Method, &[Some(4)]),
            UNWALKED,
            (Rule::Block, &[Some(5), Some(14), Some(15)]),
            (Rule::Switch, &[Some(6), Some(7)]),
            NAME,
            (Rule::Block, &[Some(8), Some(11)]),
            (Rule::JumpTarget, &[None, Some(10)]),
            UNWALKED,
            (Rule::Call, &[]),
            (Rule::JumpTarget, &[None, Some(13)]),
            UNWALKED,
            (Rule::Call, &[]),
            (Rule::Goto, &[]),
            (Rule::While, &[Some(16), Some(17)]),
            NAME,
            (Rule::Block, &[Some(18)]),
            (Rule::JumpTarget, &[None, Some(19)]),
            (Rule::Call, &[]),
        ],
        end: 20,
        targets: &[(5, 11), (14, 18), (5, 8)],
        breaks: &[],
        continues: &[],
        edges: &[
            (2, 6),
            (6, 8),
            (6, 11),
            (6, 14),
            (8, 10),
            (10, 11),
            (11, 13),
            (13, 14),
            (14, 18),
            (16, 18),
            (16, 20),
            (18, 19),
            (19, 16),
        ],
    },
    // `void f(int n) { for (; n; n++) continue; }`.
    Sketch {
        shows: "a continue goes on at the third part",
        rows: &[
            UNWALKED,
            UNWALKED,
            (Rule::Method, &[Some(4)]),
            UNWALKED,
            (Rule::Block, &[Some(5)]),
            (Rule::For, &[None, Some(6), Some(7), Some(9)]),
            NAME,
            (Rule::Call, &[Some(8)]),
            NAME,
            (Rule::Continue, &[]),
        ],
        end: 10,
        targets: &[],
        breaks: &[],
        continues: &[(5, 9)],
        edges: &[(2, 6), (6, 9), (6, 10), (7, 6), (8, 7), (9, 8)],
    },
    // `void f(void) { for (;;); }`.
    Sketch {
        shows: "a loop without parts is never left",
        rows: &[
            UNWALKED,
            UNWALKED,
            (Rule::Method, &[Some(3)]),
            (Rule::Block, &[Some(4)]),
            (Rule::Endless, &[]),
        ],
        end: 5,
        targets: &[],
        breaks: &[],
        continues: &[],
        edges: &[],
    },
    // `void f(int n) {
    //     do { if (n) break; else return; } while (sizeof n);
    //     switch (n) { default: case 1: break; }
    // }`.
    Sketch {
        shows: "a jump ends a loop a switch or the function",
        rows: &[
            UNWALKED,
            UNWALKED,
            (Rule::Method, &[Some(4)]),
            UNWALKED,
            (Rule::Block, &[Some(5), Some(13)]),
            (Rule::Do, &[Some(6), Some(11)]),
            (Rule::Block, &[Some(7)]),
            (Rule::If, &[Some(8), Some(9), Some(10)]),
            NAME,
            (Rule::Break, &[]),
            (Rule::Return, &[None]),
            (Rule::SizeOf, &[]),
            UNWALKED,
            (Rule::SwitchDefault, &[Some(14), Some(15)]),
            NAME,
            (Rule::Block, &[Some(16)]),
            (Rule::JumpTarget, &[None, Some(17)]),
            (Rule::JumpTarget, &[None, Some(19)]),
            UNWALKED,
            (Rule::Break, &[]),
        ],
        end: 20,
        targets: &[(13, 16), (13, 17)],
        breaks: &[(13, 19), (5, 9)],
        continues: &[],
        edges: &[
            (2, 8),
            (8, 9),
            (8, 10),
            (9, 14),
            (10, 20),
            (11, 8),
            (11, 14),
            (14, 16),
            (14, 17),
            (16, 17),
            (17, 19),
            (19, 20),
        ],
    },
    // `void f(int n) { switch (n) { while (n) { case 1: continue; } } }`.
    Sketch {
        shows: "a case within a loop is entered from the switch around the loop",
        rows: &[
            UNWALKED,
            UNWALKED,
            (Rule::Method, &[Some(4)]),
            UNWALKED,
            (Rule::Block, &[Some(5)]),
            (Rule::Switch, &[Some(6), Some(7)]),
            NAME,
            (Rule::Block, &[Some(8)]),
            (Rule::While, &[Some(9), Some(10)]),
            NAME,
            (Rule::Block, &[Some(11)]),
            (Rule::JumpTarget, &[None, Some(13)]),
            UNWALKED,
            (Rule::Continue, &[]),
        ],
        end: 14,
        targets: &[(5, 11)],
        breaks: &[],
        continues: &[(8, 13)],
        edges: &[
            (2, 6),
            (6, 11),
            (6, 14),
            (9, 11),
            (9, 14),
            (11, 13),
            (13, 9),
        ],
    },
    // `int f(int n) { int a; if (n) ; for (a = 0;;) { break; } while (n) ; return a; }`.
    Sketch {
        shows: "what is left out is passed, and so is a declaration",
        rows: &[
            UNWALKED,
            UNWALKED,
            (Rule::Method, &[Some(4)]),
            UNWALKED,
            (
                Rule::Block,
                &[Some(5), Some(6), Some(8), Some(14), Some(16)],
            ),
            UNWALKED,
            (Rule::If, &[Some(7), None, None]),
            NAME,
            (Rule::Endless, &[Some(9), None, None, Some(12)]),
            (Rule::Call, &[Some(10), Some(11)]),
            NAME,
            NAME,
            (Rule::Block, &[Some(13)]),
            (Rule::Break, &[]),
            (Rule::While, &[Some(15), None]),
            NAME,
            (Rule::Return, &[Some(17)]),
            NAME,
        ],
        end: 18,
        targets: &[],
        breaks: &[(8, 13)],
        continues: &[],
        edges: &[
            (2, 7),
            (7, 10),
            (9, 13),
            (10, 11),
            (11, 9),
            (13, 15),
            (15, 15),
            (15, 17),
            (16, 18),
            (17, 16),
        ],
    },
    // `int x; void f(void) { x; }`, as the function of the file.
    Sketch {
        shows: "a function in a block is passed",
        rows: &[
            (Rule::Method, &[Some(1)]),
            (Rule::Block, &[Some(2), Some(3)]),
            UNWALKED,
            UNWALKED,
            UNWALKED,
            UNWALKED,
            UNWALKED,
        ],
        end: 7,
        targets: &[],
        breaks: &[],
        continues: &[],
        edges: &[(0, 7)],
    },
];

#[test]
fn the_edges_of_a_function_are_its_flow(rt: HostRuntime) -> Result<(), Fail> {
    for sketch in &FUNCTIONS {
        let edges = flow(rt.alloc(), plan(rt.alloc(), sketch)?)?;
        assert_eq!(rt; edges.as_slice(), sketch.edges, "{}", sketch.shows);
    }
    Ok(())
}
