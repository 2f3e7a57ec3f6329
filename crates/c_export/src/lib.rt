// How C asks for an export, and what it is told of one: its numbers in a `told` array.
#![tactic(auto)]

ghost use Rattle.std.specs.Prelude.{◌≡◌};
ghost use Rattle.c_export.specs.Telling.{style_with, export_number, export_after};

use action_records::Style;
use answers::Refusal;
use export::Exported;

pub fn style_with(as_printed: bool) -> Style
    ensures { result ≡ style_with as_printed }
{
    if as_printed {
        Style::AsPrinted
    } else {
        Style::AsPlayed
    }
}

pub fn tell_export(answer: Result<Exported, Refusal>, told: &mut [u64; 6]) -> u64
    ensures value { result ≡ export_number answer }
    ensures told_after { told.new ≡ export_after answer told.old }
{
    match answer {
        Ok(
            Exported {
                counts: c,
                bytes: n,
            },
        ) => {
            told[0] = c.tokens as u64;
            told[1] = c.actions as u64;
            told[2] = c.operands as u64;
            told[3] = c.levels as u64;
            told[4] = c.labels as u64;
            told[5] = n as u64;
            0
        }
        Err(r) => {
            told[0] = answers::refusal_place(r) as u64;
            answers::refusal_number(r)
        }
    }
}
