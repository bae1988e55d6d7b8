//! Tables of nodes, each of which gives back the low program that it was made of.

ghost use Rattle.std.specs.Prelude.{◌<◌, ◌^◌, length};

use super::sources::{LETTER, SHOP, TOUR, checked};
use daemon_encode::encode;
use np_check::Checked;
use np_code::{Code, flatten, unflatten};
use np_low_text::print_low;
use np_syntax::{LowProgram, Memory, Text};
use std::alloc::Global;
use std::test::Fail;

/// The text of the low program that a table gives.
fn text_of(alloc: Global, code: &Code) -> Result<Text, Memory> {
    let low = unflatten(alloc, code)?;
    let text = print_low(alloc, &low);
    drop(low);
    text
}

/// The text of a low program, by way of its table.
fn text_by_table(alloc: Global, low: &LowProgram) -> Result<Text, Memory>
    requires { length low.now.sites < 2 ^ 32 }
{
    match flatten(alloc, low) {
        Ok(code) => {
            let text = text_of(alloc, &code);
            drop(code);
            text
        }
        Err(_) => Err(Memory),
    }
}

/// Whether a low program has the same text by way of its table.
fn comes_back(alloc: Global, low: &LowProgram) -> Result<bool, Memory>
    requires { length low.now.sites < 2 ^ 32 }
{
    let text = print_low(alloc, low)?;
    let again = text_by_table(alloc, low)?;
    let same = text.as_slice() == again.as_slice();
    drop(text);
    drop(again);
    Ok(same)
}

/// The same of that of a program.
fn encoded_comes_back(alloc: Global, program: &Checked) -> Result<bool, Memory> {
    let _ = program.program();
    let low = encode(alloc, program)?;
    let same = comes_back(alloc, &low);
    drop(low);
    same
}

/// The same of that of a source.
fn source_comes_back(alloc: Global, source: &str) -> Result<bool, Memory> {
    let checked = checked(alloc, source)?;
    let same = encoded_comes_back(alloc, &checked);
    drop(checked);
    same
}

#[test]
fn a_table_gives_its_program_back(rt: HostRuntime) -> Result<(), Fail> {
    for source in [LETTER, TOUR, SHOP] {
        let same = source_comes_back(rt.alloc(), source)?;
        assert!(rt; same);
    }
    Ok(())
}
