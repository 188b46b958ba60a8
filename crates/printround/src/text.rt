// The lines of a printed round.
ghost use Rattle.std.specs.Prelude.{◌≡◌, IfOk, List, [], map, get_or, string_bytes};
ghost use Rattle.numbers.specs.Positions.{quantised};
ghost use Rattle.cells.specs.declared.link.PathLink.{PathLink};
ghost use Rattle.cells.specs.CellOf.{node_with};
ghost use Rattle.cells.specs.Nodes.{no_entry, first_area};
ghost use Rattle.printround.specs.Text.{head_of, line_text, line_of, lines_of, end_of, refused_of, steps_of};
ghost use Rattle.printround.specs.Text.{round_of, bad_input};

use cells::area::own_area;
use cells::node_entry::NodeEntry;
use numbers::math::Vec3;
use numbers::position::{Quantised, quantise};
use std::alloc::{AllocError, Global};
use walks::walk::End;

pub(crate) fn bad_input(alloc: Global) -> Result<String, AllocError>
    ensures { IfOk result (λ text. string_bytes text ≡ bad_input) }
{
    format!(in alloc; "bad input\n")
}

pub(crate) fn refused(alloc: Global, number: u32) -> Result<String, AllocError>
    ensures { IfOk result (λ text. string_bytes text ≡ refused_of number) }
{
    format!(in alloc; "refused {number}\n")
}

fn head(alloc: Global, area: u16, choices: usize) -> Result<String, AllocError>
    ensures { IfOk result (λ text. string_bytes text ≡ head_of area choices) }
{
    format!(in alloc; "round area {area} choices {choices}\n")
}

fn end_line(alloc: Global, end: End) -> Result<String, AllocError>
    ensures { IfOk result (λ text. string_bytes text ≡ end_of end) }
{
    match end {
        End::Done => format!(in alloc; "end done\n"),
        End::NoLink => format!(in alloc; "end no-link\n"),
        End::NoNode => format!(in alloc; "end no-node\n"),
        End::Left(area, number) => format!(in alloc; "end left {area} {number}\n"),
    }
}

fn line_with(alloc: Global, k: usize, number: u16, q: Quantised) -> Result<String, AllocError>
    ensures { IfOk result (λ text. string_bytes text ≡ line_text k number q) }
{
    format!(in alloc; "{k} node {number} x {} y {} z {}\n", q.x, q.y, q.z)
}

// The steps that are stored of a node's position.
#[tactic(auto, unfolding(crate::specs::Text::steps_of))]
fn steps_of(n: NodeEntry) -> Quantised
    ensures { result ≡ steps_of (node_with [] n) }
{
    quantise(Vec3::from(n.position))
}

fn line(alloc: Global, k: usize, n: NodeEntry) -> Result<String, AllocError>
    ensures { IfOk result (λ text. string_bytes text ≡ line_of k (node_with [] n)) }
{
    line_with(alloc, k, n.node_id, steps_of(n))
}

// The node at a place, zeros where there is none.
fn entry_at(nodes: &[NodeEntry], p: usize) -> NodeEntry
    ensures { result ≡ get_or nodes.now p no_entry }
{
    nodes.get(p).copied().unwrap_or_default()
}

// A line for each place, whatever the nodes' links.
fn lines(alloc: Global, nodes: &[NodeEntry], places: &[u32]) -> Result<String, AllocError>
    ensures { IfOk result (λ text. (links : List PathLink)
        → string_bytes text ≡ lines_of (map (node_with links) nodes.now) 0 places.now) }
{
    let mut text = String::new(alloc);
    for (k, p) in places.iter().enumerate() {
        let n = entry_at(nodes, *p as usize);
        let next = line(alloc, k, n)?;
        text.push_str(next.as_str())?;
    }
    Ok(text)
}

// The whole text of a round that ended.
pub(crate) fn round(
    alloc: Global,
    nodes: &[NodeEntry],
    choices: usize,
    end: End,
    places: &[u32],
) -> Result<String, AllocError>
    ensures { IfOk result (λ text. (links : List PathLink)
        → string_bytes text ≡ round_of (map (node_with links) nodes.now) choices end places.now) }
{
    let area = own_area(nodes, nodes.len());
    let mut text = head(alloc, area, choices)?;
    let visited = lines(alloc, nodes, places)?;
    let last = end_line(alloc, end)?;
    text.push_str(visited.as_str())?;
    text.push_str(last.as_str())?;
    Ok(text)
}
