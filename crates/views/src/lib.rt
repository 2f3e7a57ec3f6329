// What the programs show of a text: a line with a mark under a place; of a file, its name. Control characters are shown as `?`; after the
// place of a mark they end the line.
#![tactic(auto)]

use printing::Printer;
use scanner::byte_at;
use std::ops::Range;

// A line of up to this many characters is shown whole; else these many before the place and from it on.
const WHOLE: usize = 160;

const BEFORE: usize = 100;

const AFTER: usize = 60;

// The bytes from `from` up to `to`; none where these are out of order or past the end.
pub fn part(text: &[u8], from: usize, to: usize) -> &[u8] {
    text.get(from..to).unwrap_or(&[])
}

// Whether a control character starts here, but for a tab; those from U+0080 on have a first byte of 194.
pub fn is_control(text: &[u8], i: usize) -> bool {
    match byte_at(text, i) {
        b'\t' => false,
        0..=31 | 127 => true,
        194 => i < text.len() && byte_at(text, i + 1) < 160,
        _ => false,
    }
}

// How many more characters may be shown after this byte: a later byte of a character counts for nothing.
fn left_after(b: u8, left: usize) -> usize {
    if places::is_tail(b) {
        left
    } else {
        left.saturating_sub(1)
    }
}

// Whether the line as it is shown stops before this byte.
fn stops(text: &[u8], i: usize, left: usize) -> bool {
    is_control(text, i) || left == 0 && !places::is_tail(byte_at(text, i))
}

// Where the line as it is shown ends, if it may have `most` characters from a place on.
fn shown_to(text: &[u8], at: usize, most: usize) -> usize {
    let mut left = most;
    for i in at..text.len() {
        if stops(text, i, left) {
            return i;
        }
        left = left_after(byte_at(text, i), left);
    }
    at.max(text.len())
}

// Where the line as it is shown starts, if it may have `most` characters before a place.
fn shown_from(text: &[u8], start: usize, at: usize, most: usize) -> usize {
    let mut left = most;
    for i in (start..at).rev() {
        if left == 0 {
            return i + 1;
        }
        left = left_after(byte_at(text, i), left);
    }
    start.min(at)
}

// Whether a byte is the second one of a control character.
fn ends_control(text: &[u8], i: usize) -> bool {
    0 < i && byte_at(text, i - 1) == 194 && byte_at(text, i) < 160
}

// What is shown for a byte, if anything.
fn shown_byte(text: &[u8], i: usize) -> Option<u8> {
    if is_control(text, i) {
        Some(b'?')
    } else if ends_control(text, i) {
        None
    } else {
        Some(byte_at(text, i))
    }
}

// What is shown below a byte, once for each character: a tab stays one, so that the mark stands under its place.
fn byte_below(text: &[u8], i: usize) -> Option<u8> {
    match byte_at(text, i) {
        b'\t' => Some(b'\t'),
        b if places::is_tail(b) => None,
        _ => Some(b' '),
    }
}

// A byte of a text that is not UTF-8: what a terminal makes of one over 126 is not known.
fn ascii_byte(text: &[u8], i: usize) -> Option<u8> {
    match byte_at(text, i) {
        b @ 32..=126 => Some(b),
        _ => Some(b'?'),
    }
}

// What is shown for a byte where a tab would part columns, if anything.
pub fn name_byte(text: &[u8], i: usize) -> Option<u8> {
    if byte_at(text, i) == b'\t' {
        return Some(b'?');
    }
    shown_byte(text, i)
}

// Prints what `shown` makes of some bytes. No row is longer than what it is written for, so 1,024 bytes have room.
fn print_bytes<F: Fn(&[u8], usize) -> Option<u8>>(
    to: Printer,
    text: &[u8],
    bytes: Range<usize>,
    shown: F,
)
    requires { F.IsAlwaysCallable shown }
{
    let mut out = [0u8; 1024];
    let mut n = 0;
    for i in bytes {
        if let Some(b) = shown(text, i) {
            if n < out.len() {
                out[n] = b;
                n += 1;
            }
        }
    }
    to.text(part(&out, 0, n));
}

// A text of any length, 1,024 bytes at a time.
fn print_row<F: Fn(&[u8], usize) -> Option<u8>>(to: Printer, text: &[u8], shown: F)
    requires { F.IsAlwaysCallable shown }
{
    for from in (0..text.len()).step_by(1024) {
        let end = from.saturating_add(1024).min(text.len());
        print_bytes(to, text, from..end, &shown);
    }
}

// The name of a file, to standard output or standard error. A name can be any bytes.
pub fn print_name(to: Printer, name: &[u8]) {
    if utf8::valid_up_to(name) < name.len() {
        print_row(to, name, ascii_byte);
    } else {
        print_row(to, name, name_byte);
    }
}

// What of a line is shown.
fn window_at(text: &[u8], start: usize, at: usize) -> Range<usize> {
    let end = shown_to(text, at, text.len());
    if places::code_points(part(text, start, end)) <= WHOLE {
        return start..end;
    }
    shown_from(text, start, at, BEFORE)..shown_to(text, at, AFTER)
}

// The line of a place, and a mark below the place.
pub fn print_view(to: Printer, text: &[u8], at: usize) {
    let start = places::line_start(text, at);
    let window = window_at(text, start, at);
    let from = window.start;
    let end = window.end;
    let is_cut = start < from;
    if is_cut {
        to.text(b"...");
    }
    print_bytes(to, text, from..end, shown_byte);
    if end < text.len() && !is_control(text, end) {
        to.text(b"...");
    }
    to.text(b"\n");
    if is_cut {
        to.text(b"   ");
    }
    print_bytes(to, text, from..at, byte_below);
    to.text(b"^\n");
}
