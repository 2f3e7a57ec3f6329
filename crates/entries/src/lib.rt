// The entries of the tables that reading fills: one number for each, for a level two, and the structs made of them.
#![tactic(auto)]

ghost use Rattle.std.specs.Prelude.{◌≡◌, [], ◌∷◌, ◌*◌, ◌-◌, ◌≤◌, get_or, set};
ghost use Rattle.tokens.specs.Tokens.{token_of};
ghost use Rattle.std.proofs.lemmas.List.Edits.{sets};
ghost use Rattle.entries.specs.declared.Block.TheVariants as B;
ghost use Rattle.entries.specs.Entries.{action_word, action_of, unclosed_bit, operand_word, operand_of, block_number, part_of, block_of, net_number, net_of, level_words, level_of, level_at, level_in, label_word, label_of, owner_of};
ghost use Rattle.entries.specs.Levels.{fresh, with_action, Small, NetFits, SmallLevel, ActionFits, OperandFits, LabelFits};

use actions::{action_at, action_number};
use names::ActionName;
use tokens::{Token, token_of};

// Its operands are `count` entries of the operand table, from `first` on.
#[derive(Clone, Copy)]
pub struct Action {
    pub name: ActionName,
    pub level: usize,
    pub first: usize,
    pub count: usize,
}

// Unclosed is a string without its closing quote, and nothing else.
#[derive(Clone, Copy)]
pub struct Operand {
    pub action: usize,
    pub token: usize,
    pub unclosed: bool,
}

// Which block of which action a level is; the top level is none.
#[derive(Clone, Copy)]
pub enum Block {
    Top,
    Body(usize),
    Try(usize),
    Catch(usize),
    Finally(usize),
}

// Document 01's net: the height that a level's own actions leave, or the first of them whose delta is undetermined.
#[derive(Clone, Copy)]
pub enum Net {
    Height(i64),
    Undetermined(usize),
}

// Its own actions are counted, and the unclosed strings among their operands; bodies not.
#[derive(Clone, Copy)]
pub struct Level {
    pub block: Block,
    pub actions: usize,
    pub net: Net,
    pub unclosed: usize,
}

// The token is the first that names it, the position the last that it was given.
#[derive(Clone, Copy)]
pub struct Label {
    pub level: usize,
    pub token: usize,
    pub position: usize,
}

// No `From` for the words of entries: a number means an action only in its table, and a level takes two.
pub fn action_of(word: u64) -> Action
    ensures { result ≡ action_of word }
{
    Action {
        name: action_at((word / 2251799813685248) as usize),
        level: (word / 17179869184 % 131072) as usize,
        first: (word / 131072 % 131072) as usize,
        count: (word % 131072) as usize,
    }
}

pub fn operand_of(word: u64) -> Operand
    ensures { result ≡ operand_of word }
{
    Operand {
        action: (word / 1099511627776 % 1048576) as usize,
        token: (word % 1048576) as usize,
        unclosed: word / 1048576 % 2 == 1,
    }
}

#[tactic(auto, unfolding(crate::specs::Entries::block_of))]
fn block_of(number: u64) -> Block
    ensures { result ≡ block_of number }
{
    if number == 0 {
        return Block::Top;
    }
    let action = ((number - 1) / 4) as usize;
    match (number - 1) % 4 {
        0 => Block::Body(action),
        1 => Block::Try(action),
        2 => Block::Catch(action),
        _ => Block::Finally(action),
    }
}

fn net_of(number: u64) -> Net
    ensures { result ≡ net_of number }
{
    if number < 196608 {
        return Net::Height(-((196608 - number) as i64));
    }
    if number < 524288 {
        return Net::Height((number - 196608) as i64);
    }
    Net::Undetermined((number - 524288) as usize)
}

pub fn level_of(word: u64, count: u64) -> Level
    ensures { result ≡ level_of word count }
{
    Level {
        block: block_of(word / 1099511627776 % 1048576),
        actions: (word / 1048576 % 1048576) as usize,
        net: net_of(word % 1048576),
        unclosed: (count % 1048576) as usize,
    }
}

pub fn label_of(word: u64) -> Label
    ensures { result ≡ label_of word }
{
    Label {
        level: (word / 1099511627776) as usize,
        token: (word % 1048576) as usize,
        position: (word / 1048576 % 1048576) as usize,
    }
}

// The word at a place of a table; 0 past its end.
fn word_at(table: &[u64], at: usize) -> u64
    ensures { result ≡ get_or table.now at 0 }
{
    table.get(at).copied().unwrap_or(0)
}

// ---- the entry at a place of a table; past its end that of the word 0, for a level of two words 0

pub fn token_in(table: &[u64], at: usize) -> Token
    ensures { result ≡ token_of (get_or table.now at 0) }
{
    token_of(word_at(table, at))
}

pub fn action_in(table: &[u64], at: usize) -> Action
    ensures { result ≡ action_of (get_or table.now at 0) }
{
    action_of(word_at(table, at))
}

pub fn operand_in(table: &[u64], at: usize) -> Operand
    ensures { result ≡ operand_of (get_or table.now at 0) }
{
    operand_of(word_at(table, at))
}

#[tactic(auto, unfolding(crate::specs::Entries::level_in, crate::specs::Entries::level_at))]
pub fn level_in(table: &[u64], at: usize) -> Level
    ensures { result ≡ level_in table.now at }
{
    if at < table.len() / 2 {
        return level_of(table[2 * at], table[2 * at + 1]);
    }
    level_of(0, 0)
}

pub fn label_in(table: &[u64], at: usize) -> Label
    ensures { result ≡ label_of (get_or table.now at 0) }
{
    label_of(word_at(table, at))
}

// ---- entries written; past the table's end nothing is

fn put(table: &mut [u64], at: usize, word: u64)
    ensures { table.new ≡ set table.old at word }
{
    if at < table.len() {
        table[at] = word;
    }
}

#[tactic(auto, using(actions::proofs::Numbers::number_below))]
pub fn put_action(table: &mut [u64], at: usize, action: Action)
    requires { ActionFits action }
    ensures { table.new ≡ set table.old at (action_word action) }
{
    let number = action_number(action.name) as u64;
    let level = action.level as u64;
    let first = action.first as u64;
    let count = action.count as u64;
    put(
        table,
        at,
        number * 2251799813685248 + level * 17179869184 + first * 131072 + count,
    );
}

pub fn put_operand(table: &mut [u64], at: usize, operand: Operand)
    requires { OperandFits operand }
    ensures { table.new ≡ set table.old at (operand_word operand) }
{
    let bit = u64::from(operand.unclosed) * 1048576;
    put(
        table,
        at,
        operand.action as u64 * 1099511627776 + bit + operand.token as u64,
    );
}

pub fn label_word(label: Label) -> u64
    requires { LabelFits label }
    ensures { result ≡ label_word label }
{
    label.level as u64 * 1099511627776 + label.position as u64 * 1048576 + label.token as u64
}

pub fn put_label(table: &mut [u64], at: usize, label: Label)
    requires { LabelFits label }
    ensures { table.new ≡ set table.old at (label_word label) }
{
    put(table, at, label_word(label));
}

// ---- levels, which stand in their table from their brace on; 196,608 is the number of the height 0

// Level `at` takes words 2 * at and 2 * at + 1.
fn put_level(table: &mut [u64], at: usize, word: u64, count: u64)
    requires { Small at }
    ensures { table.new ≡ sets table.old (2 * at) (word ∷ count ∷ []) }
{
    put(table, 2 * at, word);
    put(table, 2 * at + 1, count);
}

// The action that owns a block; the top level has none, and counts as owned by 0.
pub fn owner_of(block: Block) -> usize
    ensures { result ≡ owner_of block }
{
    match block {
        Block::Top => 0,
        Block::Body(a) | Block::Try(a) | Block::Catch(a) | Block::Finally(a) => a,
    }
}

// The number of a block: the four of an action in their order, the top level's below them.
fn block_number(block: Block) -> u64
    requires { Small (owner_of block) }
    ensures { (result ≡ block_number block) × (result ≤ 4194304) }
{
    let before = owner_of(block) as u64 * 4;
    match block {
        Block::Top => 0,
        Block::Body(_) => before + 1,
        Block::Try(_) => before + 2,
        Block::Catch(_) => before + 3,
        Block::Finally(_) => before + 4,
    }
}

// A level at its opening brace: no action yet, height 0.
pub fn open_level(table: &mut [u64], at: usize, block: Block)
    requires { Small at × Small (owner_of block) }
    ensures { table.new ≡ sets table.old (2 * at) (level_words (fresh block)) }
{
    put_level(table, at, block_number(block) * 1099511627776 + 196608, 0);
}

// The level at a place of a table that is being written.
pub fn level_at(table: &[u64], at: usize) -> Level
    requires { Small at }
    ensures value { result ≡ level_at table.now at }
    ensures small_level { SmallLevel result }
{
    level_of(word_at(table, 2 * at), word_at(table, 2 * at + 1))
}

// The number of a net: a height's is how far it lies above the lowest, -196,608, or 0.
fn net_number(net: Net) -> u64
    requires { NetFits net }
    ensures { (result ≡ net_number net) × Small result }
{
    match net {
        Net::Height(h) => ((h + 393216) as u64).saturating_sub(196608),
        Net::Undetermined(a) => 524288 + a as u64,
    }
}

// One action more in a level, the net behind it, and the unclosed strings among its operands.
pub fn add_action(table: &mut [u64], at: usize, net: Net, unclosed: usize)
    requires { Small at × (NetFits net × Small unclosed) }
    ensures { table.new ≡ sets table.old (2 * at) (level_words (with_action net unclosed (level_at table.old at))) }
{
    let kept = word_at(table, 2 * at) % 1152921504606846976 / 1048576;
    let before = word_at(table, 2 * at + 1) % 1048576;
    let number = net_number(net);
    put_level(
        table,
        at,
        (kept + 1) * 1048576 + number,
        before + unclosed as u64,
    );
}
