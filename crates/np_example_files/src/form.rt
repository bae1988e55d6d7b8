ghost use Rattle.std.specs.Prelude.{◌≡◌, ◌==◌, slice_index};
ghost use Rattle.np_example_files.specs.Pieces.{form_by, key_of, rest_of};

/// The forms of the pieces that make up a text.
#[derive(Clone, Copy)]
pub enum Form {
    /// A line with its line feed.
    Line,
    Tree,
    /// Bytes by their numbers.
    Numbered,
    File,
    /// Some lines of a file.
    Part,
    Quoted,
    /// A quoted text so many times.
    Times,
}

/// What stands in front of the first blank of a line, or all of it, and what stands behind that blank.
pub fn key_and_rest(line: &str) -> (&str, &str)
    ensures key { result.0.now ≡ key_of line.now }
    ensures rest { result.1.now ≡ rest_of line.now }
{
    line.split_once(' ').unwrap_or((line, ""))
}

fn begins_with_quote(line: &str) -> bool
    ensures { result ≡ (slice_index line.now 0 == 34) }
{
    line.starts_with('"')
}

/// The form of a piece with that key.
pub fn form_of(key: &str, line: &str) -> Form
    ensures { result ≡ form_by key.now line.now }
{
    if key == "|" {
        Form::Line
    } else if key == "tree" {
        Form::Tree
    } else if key == "bytes" {
        Form::Numbered
    } else if key == "file" {
        Form::File
    } else if key == "part" {
        Form::Part
    } else if begins_with_quote(line) {
        Form::Quoted
    } else {
        Form::Times
    }
}
