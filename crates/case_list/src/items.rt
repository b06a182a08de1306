// Lists as the lines write them: items with blanks between them, each `TEXT` or `TEXT*COUNT`.
ghost use Rattle.std.specs.Prelude.{ℕ, List, IfOk, OnOk};
ghost use Rattle.case_list.specs.Reading.{IsList, IsDivided, AddsItem, AddsValues};

use std::alloc::Global;
use std::convert::AsSlice;

// What a list may be of. The text of an item stands for one value, or for several in a row.
pub(crate) trait Item: Copy {
    // What holds the values of a text.
    type Values: AsSlice<Self> + Drop;

    // The text stands for these values.
    ghost spells: { List ℕ → List Self → Type 0 };

    fn parse(heap: Global, text: &str) -> anyhow::Result<Self::Values>
        ensures { IfOk result (λ values. spells text.now (Self.Values.items values)) };
}

// The values of all items in a row.
pub(crate) fn read_list<T: Item>(heap: Global, text: &str) -> anyhow::Result<Vec<T>>
    ensures { IfOk result (λ list. IsList T.spells text.now list.items) }
{
    let mut list = Vec::new(heap);
    for item in text.split_whitespace() {
        read_item(heap, item, &mut list)?;
    }
    Ok(list)
}

// Adds the values of an item.
fn read_item<T: Item>(heap: Global, item: &str, list: &mut Vec<T>) -> anyhow::Result<()>
    ensures { OnOk result (AddsItem T.spells item.now list.old.items list.new.items) }
{
    let (text, count) = text_and_count(item)?;
    add_values(heap, text, count, list)
}

// The text of an item, and how often its values are added.
#[inline(always)]
fn text_and_count(item: &str) -> anyhow::Result<(&str, u32)>
    ensures { IfOk result (λ parts. IsDivided item.now parts.0.now parts.1) }
{
    match item.split_once('*') {
        Some((text, count)) => Ok((text, count.parse()?)),
        None => Ok((item, 1)),
    }
}

// Adds the values of a text, so often in a row.
fn add_values<T: Item>(
    heap: Global,
    text: &str,
    count: u32,
    list: &mut Vec<T>,
) -> anyhow::Result<()>
    ensures { OnOk result (AddsValues T.spells text.now count list.old.items list.new.items) }
{
    let values = T::parse(heap, text)?;
    for _ in 0..count {
        list.extend_from_slice(values.as_slice())?;
    }
    Ok(())
}
