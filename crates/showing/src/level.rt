// The levels in their order, each with its labels.
use crate::layout::{FACTS, put_action_of, put_head};
use crate::typed::put_typed;
use columns::Columns;
use entries::{Block, Label, Level, Net};
use level_trees::Source;

// Behind the count of a level's actions, and behind its net.
const NET: usize = 66;

const UNCLOSED: usize = 80;

fn put_block(out: &mut Columns, actions: &[u64], what: &[u8], a: usize) {
    out.put_text(what);
    out.put_text(b" of action ");
    put_action_of(out, actions, a);
}

fn put_owner(out: &mut Columns, actions: &[u64], block: Block) {
    match block {
        Block::Top => out.put_text(b"the top level"),
        Block::Body(a) => put_block(out, actions, b"body", a),
        Block::Try(a) => put_block(out, actions, b"try", a),
        Block::Catch(a) => put_block(out, actions, b"catch", a),
        Block::Finally(a) => put_block(out, actions, b"finally", a),
    }
}

fn put_net(out: &mut Columns, actions: &[u64], net: Net) {
    out.put_text(b"net ");
    match net {
        Net::Height(h) => out.put_signed(h),
        Net::Undetermined(a) => {
            out.put_text(b"?  by action ");
            put_action_of(out, actions, a)
        }
    }
}

fn put_unclosed(out: &mut Columns, n: usize) {
    if n != 0 {
        out.put_column(UNCLOSED);
        out.put_count(n, b"string");
        out.put_text(b" not closed");
    }
}

fn put_level(out: &mut Columns, actions: &[u64], i: usize, l: Level) {
    put_head(out, b"level   ", i);
    put_owner(out, actions, l.block);
    out.put_column(FACTS);
    out.put_count(l.actions, b"action");
    out.put_column(NET);
    put_net(out, actions, l.net);
    put_unclosed(out, l.unclosed);
    out.put_byte(b'\n');
}

fn put_label(out: &mut Columns, text: &[u8], tokens: &[u64], l: Label) {
    let token = entries::token_in(tokens, l.token);
    put_head(out, b"label   ", l.level);
    put_typed(out, text, token);
    out.put_column(FACTS);
    out.put_text(b"position ");
    out.put_number(l.position as u64);
    out.put_byte(b'\n');
}

// The table has the labels by level.
pub fn put_levels(out: &mut Columns, of: Source, n: usize) {
    let mut next = 0;
    for i in 0..n {
        put_level(out, of.actions, i, entries::level_in(of.levels, i));
        for k in next..of.labels.len() {
            let label = entries::label_in(of.labels, k);
            if label.level != i {
                break;
            }
            put_label(out, of.text, of.tokens, label);
            next = k + 1;
        }
    }
}
