// Node trees as HTML. Values are written as the notation writes them, without the escapes of HTML.

use node_tree::NodeRef;
use rt_values::{NoMemory, Word};
use std::alloc::Global;

// Appends the start of an element at this depth, with its attributes.
fn add_start(depth: usize, node: &NodeRef, html: &mut Vec<u8>) -> Result<(), NoMemory> {
    for _ in 0..depth {
        html.extend_from_slice(b"  ")?;
    }
    html.push(b'<')?;
    html.extend_from_slice(node.kind.bytes())?;
    for attribute in node.attributes {
        html.push(b' ')?;
        html.extend_from_slice(attribute.name.bytes())?;
        html.push(b'=')?;
        attribute.value.put(html)?;
    }
    html.extend_from_slice(b">\n")?;
    Ok(())
}

// Appends the ends of the open elements that end before the node at `index`.
fn add_ends(
    index: usize,
    open: &mut Vec<(usize, &Word)>,
    html: &mut Vec<u8>,
) -> Result<(), NoMemory> {
    while let Some((end, kind)) = open.pop() {
        if index < end {
            open.push((end, kind))?;
            return Ok(());
        }
        for _ in 0..open.len() {
            html.extend_from_slice(b"  ")?;
        }
        html.extend_from_slice(b"</")?;
        html.extend_from_slice(kind.bytes())?;
        html.extend_from_slice(b">\n")?;
    }
    Ok(())
}

/// Appends the nodes, which are in preorder, as elements.
pub fn add_html(alloc: Global, nodes: &[NodeRef], html: &mut Vec<u8>) -> Result<(), NoMemory> {
    let mut open = Vec::new(alloc);
    for (index, node) in nodes.iter().enumerate() {
        add_ends(index, &mut open, html)?;
        add_start(open.len(), node, html)?;
        open.push((
            index.saturating_add(1).saturating_add(node.inner),
            node.kind,
        ))?;
    }
    add_ends(usize::MAX, &mut open, html)
}
