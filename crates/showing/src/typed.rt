// A token as it was typed, each control character shown as `?`.
use columns::Columns;
use tokens::Token;

// The span of a string has its quotes.
pub fn put_typed(out: &mut Columns, text: &[u8], token: Token) {
    let typed = lookups::part(text, token.span);
    for i in 0..typed.len() {
        if let Some(b) = views::name_byte(typed, i) {
            out.put_byte(b);
        }
    }
}
