// Actions, operands and levels of a log, written straight into the lent tables: an action with its operands when it comes, a level
// when it opens, and with each of its actions once more.
#![tactic(auto)]

ghost use Rattle.std.specs.Prelude.{◌≡◌, ◌+◌, ◌≤◌, ◌<◌, map, length, drop, get_or, set};
ghost use Rattle.std.proofs.lemmas.List.Edits.{sets};
ghost use Rattle.entries.specs.Levels.{Small};
ghost use Rattle.writing.specs.Writing.{deeper, is_try, block_of, gather, unclosed_at, unclosed_of, given, Behind, written, moved_level, acted, opening, opened_in, closing, step, Writes};

use actions::action_at;
use entries::{
    Action, Block, Operand, action_in, add_action, level_at, open_level, owner_of, put_action,
    put_operand,
};
use events::{BlockKind, Event, event_of};
use names::ActionName;
use nets::{first_is_empty, next_net};
use tokens::is_unclosed;

// The level that is open, the action that came last, and how many entries are written.
#[derive(Clone, Copy)]
pub struct Writer {
    pub level: usize,
    pub action: usize,
    pub actions: usize,
    pub operands: usize,
    pub levels: usize,
}

// How many blocks are open behind an event, of those that are passed over.
fn deeper(event: Event, depth: usize) -> usize
    requires { (0 < depth) × (depth ≤ 65536) }
    ensures { (result ≡ deeper event depth) × (result ≤ depth + 1) }
{
    match event {
        Event::Action(_) | Event::Label(_) | Event::Operand(_) => depth,
        Event::Opened(_) => depth + 1,
        Event::Closed => depth - 1,
    }
}

fn is_try(kind: BlockKind) -> bool
    ensures { result ≡ is_try kind }
{
    matches!(kind, BlockKind::Try)
}

// Whether the token at a place is a string without its closing quote.
#[tactic(auto, unfolding(crate::specs::Writing::unclosed_at))]
fn is_unclosed_at(s: &[u64], token: usize) -> bool
    ensures { result ≡ unclosed_at s.now token }
{
    is_unclosed(s.get(token).copied().unwrap_or(0))
}

// Writes an operand of an action; whether it is an unclosed string.
fn give_operand(s: &[u64], token: usize, action: usize, at: usize, operands: &mut [u64]) -> bool
    requires { Small action × Small token }
    ensures operands_after { operands.new ≡ set operands.old at (given s.now action token) }
    ensures value { result ≡ unclosed_at s.now token }
{
    let unclosed = is_unclosed_at(s, token);
    let operand = Operand {
        action,
        token,
        unclosed,
    };
    put_operand(operands, at, operand);
    unclosed
}

// The place behind an action's operands, and how many of them are unclosed strings.
#[derive(Clone, Copy)]
pub struct Given {
    pub end: usize,
    pub unclosed: usize,
}

// The operands of the action whose event stands before `from`, from place `at` on. A Try's target is logged behind its try block,
// since only there it is known to be kept; so that block is passed over.
fn give_operands(
    s: &[u64],
    log: &[u64],
    from: usize,
    action: usize,
    at: usize,
    operands: &mut [u64],
) -> Given
    requires { (length log.now ≤ 65536) × ((from ≤ length log.now) × (Small action × (at ≤ 4294967296))) }
    ensures operands_after { operands.new ≡ sets operands.old at (map (given s.now action) (gather 0 (drop from log.now))) }
    ensures end_value { result.end ≡ at + length (gather 0 (drop from log.now)) }
    ensures unclosed_value { result.unclosed ≡ unclosed_of s.now (gather 0 (drop from log.now)) }
    ensures unclosed_bound { (at + result.unclosed ≤ result.end) × (result.end ≤ at + length log.now) }
{
    let mut depth = 0;
    let mut end = at;
    let mut unclosed = 0;
    for i in from..log.len() {
        let event = event_of(log[i]);
        if 0 < depth {
            depth = deeper(event, depth);
            continue;
        }
        match event {
            Event::Operand(token) => {
                let is_unclosed = give_operand(s, token as usize, action, end, operands);
                unclosed += usize::from(is_unclosed);
                end += 1;
            }
            Event::Opened(number) => {
                if !is_try(events::block_of(number)) {
                    return Given { end, unclosed };
                }
                depth = 1;
            }
            Event::Action(_) | Event::Label(_) | Event::Closed => return Given { end, unclosed },
        }
    }
    Given { end, unclosed }
}

// One action more in its level, its delta in the level's net, its unclosed strings in the level's count.
fn move_level(
    text: &[u8],
    s: &[u64],
    operands: &[u64],
    first: usize,
    given: Given,
    name: ActionName,
    action: usize,
    level: usize,
    levels: &mut [u64],
)
    requires { (action ≤ 65536) × (Small level × ((first + given.unclosed ≤ given.end) × (given.end ≤ first + 65536))) }
    ensures { levels.new ≡ moved_level text.now s.now operands.now first given name action level levels.old }
{
    let held = level_at(levels, level);
    let before = held.net;
    let empty = first_is_empty(text, s, operands, first, given.end);
    let net = next_net(before, action, name, given.end - first, empty);
    add_action(levels, level, net, given.unclosed);
}

fn act(
    text: &[u8],
    s: &[u64],
    log: &[u64],
    from: usize,
    name: ActionName,
    w: Writer,
    actions: &mut [u64],
    operands: &mut [u64],
    levels: &mut [u64],
) -> Writer
    requires { (length log.now ≤ 65536) × ((from ≤ length log.now) × Behind 65535 w) }
    ensures result_after { written actions.new operands.new levels.new result ≡ acted text.now s.now name (drop from log.now) (written actions.old operands.old levels.old w) }
    ensures actions_value { (result.actions ≡ w.actions + 1) × ((result.operands ≤ w.operands + 65536) × ((result.levels ≡ w.levels) × ((result.level ≡ w.level) × (result.action ≡ w.actions)))) }
{
    let level = w.level;
    let a = w.actions;
    let first = w.operands;
    let given = give_operands(s, log, from, a, first, operands);
    let action = Action {
        name,
        level,
        first,
        count: given.end - first,
    };
    put_action(actions, a, action);
    move_level(text, s, operands, first, given, name, a, level, levels);
    Writer {
        level,
        action: a,
        actions: a + 1,
        operands: given.end,
        levels: w.levels,
    }
}

// The block of an action that an event opens.
fn block_of(kind: BlockKind, action: usize) -> Block
    ensures { result ≡ block_of kind action }
{
    match kind {
        BlockKind::Body => Block::Body(action),
        BlockKind::Try => Block::Try(action),
        BlockKind::Catch => Block::Catch(action),
        BlockKind::Finally => Block::Finally(action),
    }
}

fn open(kind: BlockKind, w: Writer, levels: &mut [u64]) -> Writer
    requires { Behind 65536 w }
    ensures value { result ≡ opening w }
    ensures levels_after { levels.new ≡ opened_in levels.old w kind }
{
    open_level(levels, w.levels, block_of(kind, w.action));
    Writer {
        level: w.levels,
        action: w.action,
        actions: w.actions,
        operands: w.operands,
        levels: w.levels + 1,
    }
}

// Back to the action that owns the level, and to that action's level.
fn close(w: Writer, actions: &[u64], levels: &[u64]) -> Writer
    requires { Small w.level }
    ensures value { result ≡ closing actions.now levels.now w }
    ensures small { Small result.level × Small result.action }
{
    let held = level_at(levels, w.level);
    let owner = owner_of(held.block);
    let action = action_in(actions, owner);
    Writer {
        level: action.level,
        action: owner,
        actions: w.actions,
        operands: w.operands,
        levels: w.levels,
    }
}

// Labels are no concern of these tables; operands are written with their action.
fn write_event(
    text: &[u8],
    s: &[u64],
    log: &[u64],
    i: usize,
    w: Writer,
    actions: &mut [u64],
    operands: &mut [u64],
    levels: &mut [u64],
) -> Writer
    requires { (length log.now ≤ 65536) × ((i < length log.now) × Behind i w) }
    ensures result_after { written actions.new operands.new levels.new result ≡ step text.now s.now (get_or log.now i 0) (drop (i + 1) log.now) (written actions.old operands.old levels.old w) }
    ensures behind { Behind (i + 1) result }
{
    let event = event_of(log[i]);
    match event {
        Event::Action(number) => {
            let name = action_at(number as usize);
            act(text, s, log, i + 1, name, w, actions, operands, levels)
        }
        Event::Label(_) | Event::Operand(_) => w,
        Event::Opened(number) => open(events::block_of(number), w, levels),
        Event::Closed => close(w, actions, levels),
    }
}

// The entries of a log at the front of the lent tables.
pub fn write_tables(
    text: &[u8],
    s: &[u64],
    log: &[u64],
    actions: &mut [u64],
    operands: &mut [u64],
    levels: &mut [u64],
)
    requires { length log.now ≤ 65536 }
    ensures { Writes text.now s.now log.now actions.old operands.old levels.old actions.new operands.new levels.new }
{
    open_level(levels, 0, Block::Top);
    let mut w = Writer {
        level: 0,
        action: 0,
        actions: 0,
        operands: 0,
        levels: 1,
    };
    for i in 0..log.len() {
        w = write_event(text, s, log, i, w, actions, operands, levels);
    }
}
