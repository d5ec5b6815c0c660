//! A page of metrics in Prometheus' text exposition format, version 0.0.4.

use std::alloc::{AllocError, Global};
use std::fmt;
use std::fmt::{Display, Formatter, Write};

/// What a metric's value does.
#[derive(Clone, Copy, PartialEq, Eq)]
pub enum Kind {
    /// It rises, until the server starts again.
    Counter,
    /// It rises and falls.
    Gauge,
}

impl Display for Kind {
    fn fmt<W: Write>(&self, f: &mut Formatter<W>) -> fmt::Result {
        f.write_str(match self {
            Kind::Counter => "counter",
            Kind::Gauge => "gauge",
        })
    }
}

/// A page of metrics, which grows by one metric or one sample at a time.
#[derive(Drop)]
pub struct Page {
    text: String,
}

impl Page {
    /// An empty page.
    pub fn new(alloc: Global) -> Page {
        Page {
            text: String::new(alloc),
        }
    }

    /// A metric that has one value.
    pub fn metric(
        &mut self,
        kind: Kind,
        name: &str,
        help: &str,
        value: u64,
    ) -> Result<(), AllocError> {
        self.begin(kind, name, help)?;
        writeln!(self.text, "{name} {value}")
    }

    /// Begins a metric that has a value for each of its labels: [`Page::sample`] adds those.
    pub fn begin(&mut self, kind: Kind, name: &str, help: &str) -> Result<(), AllocError> {
        writeln!(self.text, "# HELP {name} {help}")?;
        writeln!(self.text, "# TYPE {name} {kind}")
    }

    /// The value of the metric for one label. The text is a name of the server's own, without a
    /// quotation mark, a backslash or a line break.
    pub fn sample(
        &mut self,
        name: &str,
        label: &str,
        text: &str,
        value: u64,
    ) -> Result<(), AllocError> {
        writeln!(self.text, "{name}{{{label}=\"{text}\"}} {value}")
    }

    /// The page's text.
    pub fn as_str(&self) -> &str {
        self.text.as_str()
    }
}
