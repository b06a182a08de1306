// The records of tables, each written as its numbers with `:` between them.
ghost use Rattle.std.specs.Prelude.{IfOk};
ghost use Rattle.case_list.specs.Reading.{AreRead, SpellsSpan, SpellsModule, SpellsStar, SpellsImport, SpellsExport};

use crate::items::Item;
use anyhow::anyhow;
use graph::records::{Export, Star};
use std::alloc::Global;
use std::error::Error;
use std::str::FromStr;
use tables::lists::{ImportRow, ModuleRow, Span};

impl Item for Span {
    type Values = [Span; 1];

    ghost spells = { SpellsSpan };

    fn parse(_heap: Global, text: &str) -> anyhow::Result<[Span; 1]> {
        let [offset, len] = read_numbers::<usize, 2>(text)?;
        let name = Span { offset, len };
        Ok([name])
    }
}

impl Item for ModuleRow {
    type Values = [ModuleRow; 1];

    ghost spells = { SpellsModule };

    fn parse(_heap: Global, text: &str) -> anyhow::Result<[ModuleRow; 1]> {
        let [kind, offset, len] = read_numbers::<usize, 3>(text)?;
        let kind = u8::try_from(kind)?;
        let id = Span { offset, len };
        let module = ModuleRow { kind, id };
        Ok([module])
    }
}

impl Item for Star {
    type Values = [Star; 1];

    ghost spells = { SpellsStar };

    fn parse(_heap: Global, text: &str) -> anyhow::Result<[Star; 1]> {
        let [owner, target] = read_numbers::<u16, 2>(text)?;
        let star = Star { owner, target };
        Ok([star])
    }
}

impl Item for ImportRow {
    type Values = [ImportRow; 1];

    ghost spells = { SpellsImport };

    fn parse(_heap: Global, text: &str) -> anyhow::Result<[ImportRow; 1]> {
        let [owner, symbol, target, name] = read_numbers::<u16, 4>(text)?;
        let import = ImportRow {
            owner,
            symbol,
            target,
            name,
        };
        Ok([import])
    }
}

impl Item for Export {
    type Values = [Export; 1];

    ghost spells = { SpellsExport };

    fn parse(_heap: Global, text: &str) -> anyhow::Result<[Export; 1]> {
        let [owner, name, symbol] = read_numbers::<u16, 3>(text)?;
        let export = Export {
            owner,
            name,
            symbol,
        };
        Ok([export])
    }
}

// The N numbers of a record.
fn read_numbers<T: FromStr + Default + Copy, const N: usize>(text: &str) -> anyhow::Result<[T; N]>
where
    T::Err: Error,
    ensures { IfOk result (λ numbers. AreRead T.from_str_gives text.now numbers) }
{
    let mut numbers = [T::default(); N];
    let mut count = 0;
    for part in text.split(':') {
        if count >= N {
            return Err(anyhow!("too many numbers"));
        }
        numbers[count] = part.parse()?;
        count += 1;
    }
    if count < N {
        return Err(anyhow!("too few numbers"));
    }
    Ok(numbers)
}
