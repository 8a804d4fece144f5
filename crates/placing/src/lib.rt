// A node at its place: whether there is room for all that one token writes is decided first, then it is written.
#![tactic(auto)]

ghost use Rattle.limits.specs.Refusal.{code};
ghost use Rattle.state.specs.Represents.{lent_tables, Represented, Puts};
ghost use Rattle.state.specs.Writes.{node_write, placed, opened_at, closed, SpotFits, NodeFits};

use environment::Layout;
use limits::Refusal;
use state::{Node, Spot};

// A node, with the row that holds it.
pub fn place(
    work: &mut [u8],
    rows: &mut [u32],
    terms: &mut [u32],
    store: &mut [u8],
    st: &mut [usize; Layout::WORDS],
    spot: Spot,
    node: Node,
    back: &[u8],
    text: &[u8],
    tag: &[u8],
) -> Result<(), Refusal>
    requires { Represented work.old (lent_tables rows.old terms.old store.old) st.old × (SpotFits spot × NodeFits node work.old back.now text.now tag.now) }
    ensures { Puts (placed spot (node_write node work.old back.now text.now tag.now spot.at)) work.old work.new (lent_tables rows.old terms.old store.old) (lent_tables rows.new terms.new store.new) st.old st.new (code result) }
{
    room::room_to_place(work, rows, terms, store, st, spot, node, back, text, tag)?;
    writes::write_placed(work, rows, terms, store, st, spot, node, back, text, tag);
    Ok(())
}

// The place of a node that comes later.
pub fn open(
    work: &mut [u8],
    rows: &mut [u32],
    terms: &mut [u32],
    store: &mut [u8],
    st: &mut [usize; Layout::WORDS],
    spot: Spot,
) -> Result<(), Refusal>
    requires { Represented work.old (lent_tables rows.old terms.old store.old) st.old × SpotFits spot }
    ensures { Puts (opened_at spot) work.old work.new (lent_tables rows.old terms.old store.old) (lent_tables rows.new terms.new store.new) st.old st.new (code result) }
{
    room::room_to_open(work, rows, terms, store, st, spot)?;
    writes::write_opened(work, rows, terms, store, st, spot);
    Ok(())
}

// The end of a list.
pub fn close(
    work: &mut [u8],
    rows: &mut [u32],
    terms: &mut [u32],
    store: &mut [u8],
    st: &mut [usize; Layout::WORDS],
    spot: Spot,
) -> Result<(), Refusal>
    requires { Represented work.old (lent_tables rows.old terms.old store.old) st.old × SpotFits spot }
    ensures { Puts (closed spot) work.old work.new (lent_tables rows.old terms.old store.old) (lent_tables rows.new terms.new store.new) st.old st.new (code result) }
{
    room::room_to_close(work, rows, terms, store, st, spot)?;
    writes::write_closed(work, rows, terms, store, st, spot);
    Ok(())
}
