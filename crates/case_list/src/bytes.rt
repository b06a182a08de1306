ghost use Rattle.std.specs.Prelude.{◌≡◌};
ghost use Rattle.case_list.specs.Reading.{is_hex_digit, SpellsBytes};

use crate::items::Item;
use anyhow::anyhow;
use std::alloc::{AllocError, Global};

// Bytes, written in hex with small letters.
impl Item for u8 {
    type Values = Vec<u8>;

    ghost spells = { SpellsBytes };

    fn parse(heap: Global, text: &str) -> anyhow::Result<Vec<u8>> {
        if text.is_empty() || text.len() % 2 != 0 {
            return Err(anyhow!("half a byte, or none"));
        }
        if !text.as_bytes().iter().all(|digit| is_hex_digit(*digit)) {
            return Err(anyhow!("no hex digit"));
        }
        // of hex digits in pairs, so that it fails for want of memory alone
        Ok(hex::decode(heap, text).map_err(|_| AllocError)?)
    }
}

fn is_hex_digit(digit: u8) -> bool
    ensures { result ≡ is_hex_digit digit }
{
    matches!(digit, b'0'..=b'9' | b'a'..=b'f')
}
