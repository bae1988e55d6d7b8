//! A case: an example with one of its sources, or with its text `a`.

use np_example_files::Example;
use np_run::Infrastructure;
use np_syntax::Event;

#[derive(Clone, Copy)]
pub(crate) struct Case<'a> {
    pub file: &'a str,
    pub example: &'a Example,
    /// The text `a`, where it is none of the example's texts.
    pub source: Option<&'a str>,
    /// The events of the run of the source's low program, once that is made.
    pub events: &'a [Event],
    /// Its lines, and the last line.
    pub report: &'a str,
}

impl<'a> Case<'a> {
    /// The example as it stands, before the low program of a source is run.
    pub(crate) fn new(file: &'a str, example: &'a Example) -> Case<'a> {
        Case {
            file,
            example,
            source: None,
            events: &[],
            report: "",
        }
    }

    /// The source that the calls read, if it is one of their texts.
    pub(crate) fn source_bytes(&self) -> Option<&'a [u8]> {
        match self.source {
            Some(source) => Some(source.as_bytes()),
            None => self.example.text("a"),
        }
    }

    /// The infrastructure of the low programs.
    pub(crate) fn infrastructure(&self) -> Infrastructure {
        if self.example.with_caches {
            Infrastructure::Cache
        } else {
            Infrastructure::Central
        }
    }

    /// The words that say so, behind those of a call.
    pub(crate) fn option(&self) -> &'static str {
        if self.example.with_caches {
            " --infra cache"
        } else {
            ""
        }
    }

    /// The first line of the histories that `run` and `past` write of such a low program.
    pub(crate) fn first_line(&self) -> &'static str {
        if self.example.with_caches {
            "history 1\n"
        } else {
            "history 2\n"
        }
    }
}
