ghost use Rattle.std.specs.Prelude.{◌≡◌, ◌^◌};
ghost use Rattle.np_example_files.specs.Numbers.{number_or_refusal};

use super::fail::ExampleFail;

/// The number that a text is, or the refusal of its line.
pub fn number_of(text: &str, line: u32) -> Result<u64, ExampleFail>
    ensures { result ≡ number_or_refusal (2 ^ 64) text.now line }
{
    text.parse::<u64>().ok().ok_or(ExampleFail::Line(line))
}

/// The number of things that a text is.
pub fn count_of(text: &str, line: u32) -> Result<usize, ExampleFail>
    ensures { result ≡ number_or_refusal (2 ^ 64) text.now line }
{
    text.parse::<usize>().ok().ok_or(ExampleFail::Line(line))
}

/// The byte whose number a text is.
pub fn byte_of(text: &str, line: u32) -> Result<u8, ExampleFail>
    ensures { result ≡ number_or_refusal (2 ^ 8) text.now line }
{
    text.parse::<u8>().ok().ok_or(ExampleFail::Line(line))
}
