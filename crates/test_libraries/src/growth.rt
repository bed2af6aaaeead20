// Pages that grow in four ways: what their trees hold, and their steps against what is proved.

use crate::pages::{Part, core_table, page_of};
use crate::same::same;
use html_parser::{EntityTable, NodeId, ParseError, Tree, parse_tree};
use std::alloc::Global;

/// How large a tree is: the code points of the page, the tokens, the nodes, those of them that are clones, and the code points that
/// the nodes hold.
fn sizes(tree: &Tree) -> [u128; 5] {
    let mut clones: u128 = 0;
    'nodes: for index in 0..tree.arena.len() as usize {
        if tree.arena.is_clone(NodeId::at(index)) {
            clones = clones.saturating_add(1);
        }
    }
    [
        tree.n as u128,
        tree.token_count as u128,
        tree.arena.len() as u128,
        clones,
        tree.arena.held(),
    ]
}

/// The most steps of a page of so many code points: 1024 (n + 32)³.
fn most_steps(n: u64) -> u128 {
    let side = (n as u128).saturating_add(32);
    side.saturating_mul(side)
        .saturating_mul(side)
        .saturating_mul(1024)
}

/// How large the tree of a page is, and whether it took no more steps than are proved.
fn grown(alloc: Global, table: &EntityTable, page: &str) -> Result<([u128; 5], bool), ParseError> {
    let tree = parse_tree(alloc, table, page.as_bytes())?;
    Ok((sizes(&tree), tree.steps <= most_steps(tree.n)))
}

/// That of the page of these parts.
fn grown_of(alloc: Global, parts: &[Part]) -> Result<([u128; 5], bool), ParseError> {
    let page = page_of(alloc, parts)?;
    let table = core_table(alloc)?;
    grown(alloc, &table, page.as_str())
}

#[test]
fn elements_one_in_the_other(rt: HostRuntime) {
    let parts = [Part::Times(100_000, "<span>")];
    let expected = [600_000, 100_001, 100_004, 0, 400_012];
    same(
        &rt,
        grown_of(rt.alloc(), parts.as_slice()),
        Ok((expected, true)),
    );
}

#[test]
fn attributes_of_one_element(rt: HostRuntime) {
    let parts = [
        Part::Times(1, "<p"),
        Part::Numbered(10_000, " a", ""),
        Part::Times(1, ">"),
    ];
    let expected = [58_893, 2, 5, 0, 48_903];
    same(
        &rt,
        grown_of(rt.alloc(), parts.as_slice()),
        Ok((expected, true)),
    );
}

#[test]
fn formatting_elements_in_each_paragraph(rt: HostRuntime) {
    let parts = [
        Part::Times(1, "<p>"),
        Part::Numbered(100, "<b id=", ">"),
        Part::Times(100, "<p>x"),
    ];
    let expected = [1_293, 302, 10_305, 10_000, 49_703];
    same(
        &rt,
        grown_of(rt.alloc(), parts.as_slice()),
        Ok((expected, true)),
    );
}

#[test]
fn paragraphs_across_formatting_elements(rt: HostRuntime) {
    let parts = [Part::Times(1_000, "<b><p>x</b></p>")];
    let expected = [15_000, 5_001, 4_004, 1_000, 4_012];
    same(
        &rt,
        grown_of(rt.alloc(), parts.as_slice()),
        Ok((expected, true)),
    );
}
