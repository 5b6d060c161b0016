//! The addresses of the objects, and the bytes.

ghost use Rattle.std.specs.Prelude.{◌≡◌, ◌+◌, ◌++◌, ◌<◌, [], IfOk, List, map};
ghost use Rattle.rtl_word.specs.Words.{IsWordSize};
ghost use Rattle.asm_token.specs.Tokens.{Token};
ghost use Rattle.asm_program.specs.TextLines.{Said as SpecSaid};
ghost use Rattle.asm_program.specs.Rules.{AreSaid, word_bytes};
ghost use Rattle.asm_program.specs.Programs.{bytes_from, data_part, object_of};
ghost use Rattle.asm_labels.specs.Seen.{seen};
ghost use Rattle.asm_data.specs.Data.{AreData, addresses};

use crate::bytes::bytes_after;
use asm_labels::{Label, Said, said_on, split_line};
use asm_program::law::says_one_thing;
use md_rows::RawDescription;
use rtl_tree::NoMemory;
use std::alloc::Global;

/// What is behind the line `.data` of a text, which is empty where there is none.
pub fn data_part(text: &[u8]) -> &[u8]
    ensures { (all : List SpecSaid) → AreSaid text.now all → AreSaid result.now (data_part all) }
{
    says_one_thing();
    let (_, mut rest) = text.split_at(0);
    while !rest.is_empty() {
        let (line, behind) = split_line(rest);
        if let Said::DataBegins = said_on(line) {
            return behind;
        }
        rest = behind;
    }
    rest
}

/// The address of each object in the order of their labels, and the bytes.
#[derive(Drop)]
pub struct Data {
    pub symbols: Vec<u32>,
    pub bytes: Vec<u8>,
}

fn has_small_memory(d: &RawDescription)
    ensures { d.now.memory < 4294967296 }
{
    let _memory = d.memory;
}

// With the address behind these bytes, where a line has the label of an object.
fn with_symbol(
    d: &RawDescription,
    mut symbols: Vec<u32>,
    reach: usize,
    said: Said<'_>,
) -> Result<Vec<u32>, NoMemory>
    requires address { d.now.base + reach < 4294967296 }
    ensures { IfOk result (λ more. (ts : List Token) → more.items ≡ symbols.items ++ map (λ o. o.1) (object_of (d.now.base + reach) (seen said.entry ts))) }
{
    match said {
        Said::Labelled(Label::Symbol(_)) => {
            symbols.push((d.base as usize + reach) as u32)?;
            Ok(symbols)
        }
        _ => Ok(symbols),
    }
}

/// The data of a text of data lines that keep the rules.
pub fn data_of(alloc: Global, d: &RawDescription, text: &[u8]) -> Result<Data, NoMemory>
    requires size { IsWordSize d.now.word }
    requires lines { (lines : List SpecSaid) × AreData d.now text.now lines [] }
    ensures { IfOk result (λ read. (lines : List SpecSaid) → AreData d.now text.now lines [] → (read.bytes.items ≡ bytes_from (word_bytes d.now) [] lines) × (read.symbols.items ≡ addresses d.now [] lines)) }
{
    says_one_thing();
    has_small_memory(d);
    let size = (d.word / 8) as usize;
    let mut data = Data {
        symbols: Vec::new(alloc),
        bytes: Vec::new(alloc),
    };
    let (_, mut rest) = text.split_at(0);
    while !rest.is_empty() {
        let (line, behind) = split_line(rest);
        let said = said_on(line);
        let bytes = bytes_after(size, data.bytes, said)?;
        let symbols = with_symbol(d, data.symbols, bytes.len(), said)?;
        data = Data { symbols, bytes };
        rest = behind;
    }
    Ok(data)
}
