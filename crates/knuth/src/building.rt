// The links of a row system: heads of cells and kinds, then for each row of a kind that has copies a node for its kind and one for each of its cells.
ghost use Rattle.std.specs.Prelude.{[], ◌∷◌, map, count_by, ◌≡◌, suc, ◌+◌, ◌≤◌, ◌<◌, length};
ghost use Rattle.std.specs.List.{range_with_len};
ghost use Rattle.lists.specs.Lists.{below, how_many, keep};
ghost use Rattle.masks.specs.Masks.{has};
ghost use Rattle.rows.specs.Rows.{mask_at, row_at};
ghost use Rattle.rows.specs.RowSystems.{seen};
ghost use Rattle.knuth.specs.Matrix.{Laid, StockLaid, columns, head_nodes, link_nodes, nodes_from, row_nodes, stocked_rows};
ghost use Rattle.knuth.specs.Listing.{Begun};

use super::node::Node;
use links::{Field, Links};
use masks::Mask;
use rows::row;
use rows::row_system::RowSystem;

// Node x's fields that stay as they are.
fn put_node(links: &mut Links, x: usize, node: Node)
    requires { (x < 4096) × (node.column < 4096) × (node.first < 4096) × (node.end ≤ 4096) × (node.row < 4096) }
    ensures { Laid links.old x links.new (node ∷ []) }
{
    links::set(links, x, Field::Column, node.column);
    links::set(links, x, Field::First, node.first);
    links::set(links, x, Field::End, node.end);
    links::set(links, x, Field::Row, node.row);
}

// The heads of n columns.
fn put_heads(links: &mut Links, n: usize)
    requires { n < 4096 }
    ensures { Laid links.old 0 links.new (head_nodes n) }
{
    // the heads before j are laid
    for j in 0..n {
        put_node(
            links,
            j,
            Node {
                column: j,
                first: j,
                end: j + 1,
                row: 0,
            },
        );
    }
}

// How many of the first n cells are in a mask.
fn count_cells(mask: Mask, n: usize) -> usize
    requires { n ≤ 128 }
    ensures { result ≡ count_by (has mask) (range_with_len 0 n) }
{
    (0..n).filter(|&c| mask.has_cell(c)).count()
}

// The nodes of a row's cells, which are the mask's, behind the node of its kind.
fn put_cells(links: &mut Links, mask: Mask, n: usize, kind: Node)
    requires { (n ≤ 128) × (kind.first + 1 + how_many (has mask) (below n) ≤ 4096) × (kind.end ≤ 4096) × (kind.row < 4096) }
    ensures { Laid links.old (kind.first + 1) links.new (map (λ c. record kind { column = c }) (keep (has mask) (below n))) }
{
    let mut at = kind.first + 1;
    // the nodes of the mask's cells before c stand before node `at`
    for c in 0..n {
        if mask.has_cell(c) {
            put_node(links, at, Node { column: c, ..kind });
            at += 1;
        }
    }
}

// The nodes of row r from node x on; and the node behind them.
fn put_row(system: &RowSystem, links: &mut Links, x: usize, r: usize) -> usize
    requires { let s = system.now in
        (r < s.d.rows) × (x + suc (how_many (has (mask_at s.work.now r)) (below s.d.size)) ≤ 4096) }
    ensures { let s = system.now in
        let inside = has (mask_at s.work.now r) in
        let kind = (row_at s.work.now r).kind in
        (result ≡ x + suc (how_many inside (below s.d.size)))
        × Laid links.old x links.new (row_nodes s.d.size x r kind (keep inside (below s.d.size))) }
{
    let size = system.d.size;
    let mask = row::mask_at(system.work, r);
    let end = x + 1 + count_cells(mask, size);
    let kind = Node {
        column: size + row::kind_at(system.work, r),
        first: x,
        end,
        row: r,
    };
    put_node(links, x, kind);
    put_cells(links, mask, size, kind);
    end
}

// The copies of kinds, by their columns; none for the columns of cells.
fn put_copies(system: &RowSystem, links: &mut Links)
    ensures { let s = system.now in StockLaid links.old links.new s.d.size s.d.kinds s.chart.now }
{
    let d = system.d;
    // the copies of the columns before j are written
    for j in 0..d.size + d.kinds {
        let copies = if j < d.size {
            0
        } else {
            system.chart.copies_of(j - d.size)
        };
        links::set(links, j, Field::Copies, copies);
    }
}

// The nodes of all rows of kinds that have copies, behind the heads; and how many nodes there are.
fn put_rows(system: &RowSystem, links: &mut Links) -> usize
    requires { length (link_nodes (seen system.now)) ≤ 4096 }
    ensures { let S = seen system.now in
        (result ≡ length (link_nodes S)) × Laid links.old (columns S) links.new (nodes_from S (columns S) (stocked_rows S)) }
{
    let mut x = system.d.size + system.d.kinds;
    // the nodes of the rows before r stand before node x
    for r in 0..system.d.rows {
        let kind = row::kind_at(system.work, r);
        if 0 < system.chart.copies_of(kind) {
            x = put_row(system, links, x, r);
        }
    }
    x
}

// The links of a row system, every row possible.
pub fn build_links(system: &RowSystem, links: &mut Links)
    requires { length (link_nodes (seen system.now)) ≤ 4096 }
    ensures { Begun (seen system.now) links.new }
{
    let columns = system.d.size + system.d.kinds;
    put_heads(links, columns);
    put_copies(system, links);
    let nodes = put_rows(system, links);
    links::link_all(links, system.d.size, columns, nodes);
}
