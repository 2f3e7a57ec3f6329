// The columns that every line has, and the names of actions.
use columns::Columns;
use names::ActionName;

// Where what a line is about starts, and where what is known of it does.
pub const SUBJECT: usize = 14;

pub const FACTS: usize = 52;

// What a line is, and a number.
pub fn put_head(out: &mut Columns, what: &[u8], number: usize) {
    out.put_text(what);
    out.put_number(number as u64);
    out.put_column(SUBJECT);
}

pub fn put_name(out: &mut Columns, a: ActionName) {
    let letters = words::LETTERS;
    out.put_text(words::spelling(&letters, a));
}

// An action's number and name.
pub fn put_action_of(out: &mut Columns, actions: &[u64], i: usize) {
    out.put_number(i as u64);
    out.put_byte(b' ');
    put_name(out, entries::action_in(actions, i).name);
}
