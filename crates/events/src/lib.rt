// The log of a reading: what was read, as events in the order of the text, one word each. This crate alone knows that word.
#![tactic(auto)]

ghost use Rattle.std.specs.Prelude.{◌≡◌, ◌≤◌};
ghost use Rattle.events.specs.Log.{block_number, block_of, Holdable, log_word, word_of, kind_of, event_of, Holds};

// Which block of its action a block is.
#[derive(Clone, Copy)]
pub enum BlockKind {
    Body,
    Try,
    Catch,
    Finally,
}

// An action with its number, a label and an operand with their tokens, a block that opens with the number of its kind, and a level
// that closes.
#[derive(Clone, Copy)]
pub enum Event {
    Action(u64),
    Label(u64),
    Operand(u64),
    Opened(u64),
    Closed,
}

pub fn block_number(block: BlockKind) -> u64
    ensures { (result ≡ block_number block) × (result ≤ 3) }
{
    match block {
        BlockKind::Body => 0,
        BlockKind::Try => 1,
        BlockKind::Catch => 2,
        BlockKind::Finally => 3,
    }
}

pub fn block_of(number: u64) -> BlockKind
    ensures { result ≡ block_of number }
{
    match number {
        0 => BlockKind::Body,
        1 => BlockKind::Try,
        2 => BlockKind::Catch,
        _ => BlockKind::Finally,
    }
}

pub fn log_word(kind: u64, holds: u64) -> u64
    requires { (kind ≤ 4) × Holdable holds }
    ensures { result ≡ log_word kind holds }
{
    kind * 1048576 + holds
}

pub fn event_word(event: Event) -> u64
    requires { Holds event }
    ensures { result ≡ word_of event }
{
    match event {
        Event::Action(number) => log_word(0, number),
        Event::Label(token) => log_word(1, token),
        Event::Operand(token) => log_word(2, token),
        Event::Opened(number) => log_word(3, number),
        Event::Closed => log_word(4, 0),
    }
}

pub fn kind_of(word: u64) -> u64
    ensures { result ≡ kind_of word }
{
    word / 1048576
}

pub fn event_of(word: u64) -> Event
    ensures value { result ≡ event_of word }
    ensures holds { Holds result }
{
    let holds = word % 1048576;
    match word / 1048576 {
        0 => Event::Action(holds),
        1 => Event::Label(holds),
        2 => Event::Operand(holds),
        3 => Event::Opened(holds),
        _ => Event::Closed,
    }
}
