//! A small unit and its edges.
use crate::edge::Edge;
use crate::graph::Graph;
use bytecode::read::read;
use std::test::Fail;

/// A flag and JF 4, a flag and JF 1, a flag and JF -4, and HALT.
const UNIT: [u8; 48] = [
    1, 0, 0, 7, 3, 0, 0, 0, 0, 1, 17, 0, 0, 0, 0, 4, 3, 0, 0, 0, 0, 0, 17, 0, 0, 0, 0, 1, 3, 0, 0,
    0, 0, 0, 17, 0, 255, 255, 255, 252, 1, 0, 0, 0, 0, 0, 4, 68,
];

/// The start and the end of an edge and whether it is a jump's; none of a number past the last.
fn told(graph: &Graph, edge: usize) -> Option<(usize, usize, bool)> {
    if edge >= graph.edge_count() {
        return None;
    }
    let Edge { start, end, jump } = graph.edge(edge);
    Some((start, end, jump))
}

fn next_out(graph: &Graph, edge: usize) -> Option<usize> {
    if edge < graph.edge_count() {
        graph.next_out(edge)
    } else {
        None
    }
}

fn next_into(graph: &Graph, edge: usize) -> Option<usize> {
    if edge < graph.edge_count() {
        graph.next_into(edge)
    } else {
        None
    }
}

#[test]
fn edges_are_in_order(rt: HostRuntime) -> Result<(), Fail> {
    let graph = Graph::new(&read(&UNIT)?);
    assert!(rt; told(&graph, 0) == Some((0, 1, false)));
    assert!(rt; told(&graph, 1) == Some((1, 2, false)));
    assert!(rt; told(&graph, 2) == Some((1, 5, true)));
    assert!(rt; told(&graph, 3) == Some((2, 3, false)));
    assert!(rt; told(&graph, 4) == Some((3, 4, false)));
    assert!(rt; told(&graph, 5) == Some((3, 4, true)));
    assert!(rt; told(&graph, 6) == Some((4, 5, false)));
    assert!(rt; told(&graph, 7) == Some((5, 1, true)));
    assert!(rt; told(&graph, 8) == Some((5, 6, false)));
    assert!(rt; told(&graph, 9) == None);
    Ok(())
}

#[test]
fn edges_are_found_by_their_places(rt: HostRuntime) -> Result<(), Fail> {
    let graph = Graph::new(&read(&UNIT)?);
    assert!(rt; graph.first_out(3) == Some(4));
    assert!(rt; next_out(&graph, 4) == Some(5));
    assert!(rt; next_out(&graph, 5) == None);
    assert!(rt; graph.first_out(6) == None);
    assert!(rt; graph.first_out(128) == None);
    assert!(rt; graph.first_into(0) == None);
    assert!(rt; graph.first_into(1) == Some(0));
    assert!(rt; next_into(&graph, 0) == Some(7));
    assert!(rt; next_into(&graph, 7) == None);
    assert!(rt; graph.first_into(4) == Some(4));
    assert!(rt; next_into(&graph, 4) == Some(5));
    Ok(())
}
